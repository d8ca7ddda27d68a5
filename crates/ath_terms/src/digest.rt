// Digests of sorts: numbers that mostly differ where sorts do.

ghost use Rattle.std.specs.Prelude.{◌≡◌, ◌<◌, ◌^◌};
ghost use Rattle.ath_terms.specs.Digest.{svar_digest, digest};

use ath_sorts::{SVar, Sort};

/// The digests of sorts with arguments lie below it: a prime.
pub const DIGEST_RANGE: u64 = 4_294_967_291;

/// What a digest is multiplied by before the next one is added.
pub const DIGEST_FACTOR: u64 = 1_000_003;

fn svar_digest(v: SVar) -> u64
    ensures same { result ≡ svar_digest v }
    ensures room { result < 2 ^ 34 }
{
    match v {
        SVar::Written(name) => name.0 as u64 % DIGEST_RANGE * 2 + 1,
        SVar::Made(number) => number % DIGEST_RANGE * 2,
    }
}

/// The digest of a sort.
pub fn digest_of(sort: &Sort) -> u64
    ensures same { result ≡ digest sort.now }
    ensures room { result < 2 ^ 34 }
{
    match sort {
        Sort::Var(v) => svar_digest(*v),
        Sort::Con(c, args) => {
            let mut mixed = c.0 as u64 % DIGEST_RANGE;
            for arg in args.as_slice() {
                mixed = (mixed * DIGEST_FACTOR + digest_of(arg)) % DIGEST_RANGE;
            }
            mixed
        }
    }
}
