// Support for proofs, as `header::ranges`: what every pair of headers has.
ghost use Rattle.frame.specs.SealingLaw.{AuxOptionFits, InRange};

use header::auxiliary::NwkAuxHeader;
use header::nwk::NwkHeader;
use header::ranges;

// Every optional auxiliary header is within its types' ranges.
pub fn aux_option_fits(aux: Option<NwkAuxHeader>)
    ensures { AuxOptionFits aux }
{
    if let Some(aux) = aux {
        ranges::aux_fits(aux);
    }
}

// Every header, and every optional auxiliary header beside it, is within its types' ranges.
pub fn in_range(h: NwkHeader, aux: Option<NwkAuxHeader>)
    ensures { InRange h aux }
{
    ranges::header_fits(h);
    aux_option_fits(aux);
}
