//! The transfers that a client draws.
ghost use Rattle.std.specs.Prelude.{◌≡◌, ◌<◌};
ghost use Rattle.vl_drive.specs.Numbers.{bits_from, next_number, seed_of, transfer_of};

/// From which account, to which other one, and how much at most.
#[derive(Clone, Copy)]
pub struct Transfer {
    pub from: u8,
    pub to: u8,
    pub most: u64,
}

impl Transfer {
    // The transfer of a number.
    pub(crate) fn of(x: u64) -> Self
        ensures { result ≡ transfer_of x }
    {
        let from = bits(x, 33, 64);
        Transfer {
            from,
            to: (from + 1 + bits(x, 40, 63)) % 64,
            most: u64::from(bits(x, 50, 100)),
        }
    }
}

// The bits of a number from a place on, modulo a bound.
fn bits(x: u64, place: u32, bound: u8) -> u8
    requires place { place < 64 }
    requires bound { 0 < bound }
    ensures { result ≡ bits_from place bound x }
{
    let bits = (x >> place) % u64::from(bound);
    bits as u8
}

// The number behind another one.
pub(crate) fn next_number(x: u64) -> u64
    ensures { result ≡ next_number x }
{
    x.wrapping_mul(6364136223846793005)
        .wrapping_add(1442695040888963407)
}

// A client's own seed.
pub(crate) fn seed_of(seed: u64, client: u32) -> u64
    ensures { result ≡ seed_of seed client }
{
    seed.wrapping_add(u64::from(client))
}
