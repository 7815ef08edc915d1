// Which lines a kind of herd has: the number of its list among the lists of lines.
ghost use Rattle.std.specs.Prelude.{◌≡◌, ◌<◌, length};
ghost use Rattle.listing.specs.Numbered.{listed, list_number};

use inputs::Kind;

pub fn list_of(kind: Kind) -> usize
    ensures { (result ≡ list_number kind) × (result < length listed) }
{
    match kind {
        Kind::Roughage => 0,
        Kind::Cattle | Kind::DairyCow => 1,
        Kind::Pigs => 2,
    }
}
