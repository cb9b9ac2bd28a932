//! Texts as printed on labels.
ghost use Rattle.std.specs.Prelude.{◌≡◌, ◌≢◌, IfOk, OnErr, IfErr, length};
ghost use Rattle.s10_core.specs.Id.{normalized};

use crate::text_fault::TextFault;

/// Returns the 13 characters of a label text without its spaces and in capitals.
///
/// # Errors
///
/// - `Length` if the text without its spaces does not have 13 characters.
pub fn normalize_label(text: &[u8]) -> Result<[u8; 13], TextFault>
    ensures ok { IfOk result (λ strict. strict ≡ normalized text.now) }
    ensures refused { IfErr result (λ fault. fault ≡ TextFault.Length) }
    ensures length { OnErr result (length (normalized text.now) ≢ 13) }
{
    let mut strict = [0u8; 13];
    let mut count: usize = 0;
    for character in text {
        if *character != b' ' {
            if count == 13 {
                return Err(TextFault::Length);
            }
            strict[count] = character.to_ascii_uppercase();
            count += 1;
        }
    }
    if count < 13 {
        return Err(TextFault::Length);
    }
    Ok(strict)
}
