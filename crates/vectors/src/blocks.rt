// The AES-128 known answers: lines of a key, a plaintext block and its ciphertext, 32 hexadecimal digits each.
use casefile::fields::exact;
use casefile::words;

// Whether the plaintext of a line is the ciphertext under the key.
pub fn agrees(line: &[u8]) -> Option<bool> {
    let key = exact::<16>(line, 0)?;
    let plaintext = exact::<16>(line, 1)?;
    let ciphertext = exact::<16>(line, 2)?;
    words::is_last(line, 2).then_some(check::same(&aes::encrypt_block(key, plaintext), &ciphertext))
}
