// How long a farm file may be, and how many herds its farm may have. A caller says where a file comes from and invents
// no limit.
#![tactic(auto)]

ghost use Rattle.std.specs.Prelude.{◌≡◌};
ghost use Rattle.limits.specs.Limits.{limits_of};

// At most so many bytes, and at most so many herds.
#[derive(Clone, Copy, Debug, PartialEq, Eq)]
pub struct Limits {
    pub bytes: usize,
    pub herds: usize,
}

// Where a file comes from: the program's standard input, or a cooperative (02, W12).
#[derive(Clone, Copy, Debug, PartialEq, Eq)]
pub enum Source {
    StandardInput,
    Cooperative,
}

pub const INPUT_BYTES: usize = 65536;

pub const INPUT_HERDS: usize = 64;

pub const COOPERATIVE_BYTES: usize = 262144;

pub const COOPERATIVE_HERDS: usize = 512;

pub fn limits_of(source: Source) -> Limits
    ensures { result ≡ limits_of source }
{
    match source {
        Source::StandardInput => Limits {
            bytes: INPUT_BYTES,
            herds: INPUT_HERDS,
        },
        Source::Cooperative => Limits {
            bytes: COOPERATIVE_BYTES,
            herds: COOPERATIVE_HERDS,
        },
    }
}
