//! The words of the codes.
ghost use Rattle.std.specs.Prelude.{◌≡◌, ◌≤◌, length};
ghost use Rattle.s10_wire.specs.Padding.{zero_padded};
ghost use Rattle.s10_plain.specs.Words.{word_of};

/// A word in ASCII.
#[repr(C)]
#[derive(Clone, Copy, Debug, PartialEq, Eq)]
pub struct Word {
    /// The word, 1 to 15 characters, padded with zeros.
    pub text: [u8; 16],
}

fn word_bytes(code: u32) -> &'static [u8]
    ensures word { result.now ≡ word_of code }
    ensures short { length result.now ≤ 15 }
{
    match code {
        0 => b"ok",
        1 => b"length",
        2 => b"letter",
        3 => b"digit",
        4 => b"check-digit",
        11 => b"short",
        12 => b"magic",
        13 => b"version",
        14 => b"kind",
        15 => b"length",
        16 => b"field",
        17 => b"outcome",
        21 => b"idle",
        22 => b"not-mine",
        23 => b"busy",
        24 => b"numbers-spent",
        31 => b"bad-kind",
        32 => b"bad-service",
        33 => b"bad-country",
        34 => b"bad-serial",
        35 => b"bad-last",
        36 => b"bad-count",
        41 => b"no-room",
        _ => b"no-such-code",
    }
}

/// Writes the word of a code, or `no-such-code`.
pub fn write_word(code: u32, out: &mut Word)
    ensures { out.new.text ≡ zero_padded 16 (word_of code) }
{
    let word = word_bytes(code);
    let mut text = [0u8; 16];
    text[..word.len()].copy_from_slice(word);
    *out = Word { text };
}
