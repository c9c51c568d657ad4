// An answer as one number, for callers that know no enum.
#![tactic(auto)]

ghost use Rattle.std.specs.Prelude.{◌≡◌};
ghost use Rattle.enc_number.specs.Answer.{truth_number};
ghost use Rattle.type_provider.specs.Find.{found_numbers};
ghost use Rattle.gateway_codes.specs.Numbers.{place_number, found_number};

// The place after the written bytes, or 2^64 - 1 where they do not fit.
pub fn place(p: Option<usize>) -> u64
    ensures { result ≡ place_number p }
{
    match p {
        Some(n) => n as u64,
        None => 0xffff_ffff_ffff_ffff,
    }
}

// The block, or 2^32 - 1 where there is none.
pub fn found(f: Option<u32>) -> u32
    ensures { result ≡ found_number (found_numbers f) }
{
    match f {
        Some(n) => n,
        None => 0xffff_ffff,
    }
}

pub fn truth(b: bool) -> u8
    ensures { result ≡ truth_number b }
{
    b as u8
}
