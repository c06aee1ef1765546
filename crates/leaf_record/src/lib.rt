// What a leaf record says: which components are coded, and what the leaf's units are told. No Rust stands beside it.
#![tactic(auto)]

ghost use Rattle.std.specs.Prelude.{◌≡◌};
ghost use Rattle.laws.specs.Index.{pick};
ghost use Rattle.def.specs.Word.{leaf_word};
ghost use Rattle.driver_rules.specs.Records.{is_mode, coded_y, coded_u, coded_v};

// The mask's bits: 1 Y, 2 U, 4 V.
pub fn coded_y(mask: u8) -> bool
    ensures { result ≡ coded_y mask }
{
    mask % 2 == 1
}

pub fn coded_u(mask: u8) -> bool
    ensures { result ≡ coded_u mask }
{
    mask / 2 % 2 == 1
}

pub fn coded_v(mask: u8) -> bool
    ensures { result ≡ coded_v mask }
{
    mask / 4 % 2 == 1
}

// The mode byte of a kind: 255 for the lent prediction.
// kept: bytes, as lomsakeun_reconstruct is lent the records and the mode map in bytes.
pub fn mode_of(kind: u8) -> u8
    ensures { result ≡ pick (is_mode kind) kind 255 }
{
    if kind <= 4 {
        return kind;
    }
    255
}

// The word of a leaf's units: intra for a mode, the QP, luma-coded and done.
pub fn word_of(kind: u8, qp: u8, mask: u8) -> u32
    ensures { result ≡ leaf_word (is_mode kind) qp (coded_y mask) }
{
    def::leaf_word(kind <= 4, qp, coded_y(mask))
}
