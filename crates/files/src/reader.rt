// Reading a whole file from a reading place in the caller's bytes.

ghost use Rattle.std.specs.Prelude.{◌≡◌};
ghost use Rattle.model.specs.File.{read_from};

use crate::read_at;
pub use fields::reader::Reader;
use model::Reading;

// The description of the file that begins at the reading place, or what it is refused for.
pub fn read_from<'a>(r: Reader<'a>) -> Reading
    ensures { result ≡ read_from r.entry.src.now r.entry.at }
{
    read_at(r.src, r.at)
}
