// What a start or a go comes to, as the number that C hears.
ghost use Rattle.std.specs.Prelude.{◌≡◌, length, eqb};
ghost use Rattle.cells.specs.Cells.{pick};
ghost use Rattle.held.specs.Held.{held_bytes, encoded};
ghost use Rattle.host.specs.Host.{answer_no, wrong_held};

use host::Heard;
use pack::Shape;

// What is heard: what is held then, in the lent bytes, and the answer's number.
pub(crate) fn tell(bytes: &mut [u8], heard: Heard) -> u8
    ensures { (result ≡ answer_no heard.answer)
        × (bytes.new ≡ pick (eqb (length bytes.old) held_bytes) (encoded heard.held) bytes.old) }
{
    held::put(bytes, heard.held);
    host::number_of(heard.answer)
}

// Bytes that encode no held state.
pub(crate) fn refuse(g: Shape, storage: &[u8], cells: &[u16]) -> u8
    ensures { result ≡ answer_no (wrong_held g (length storage.now) (length cells.now)) }
{
    host::number_of(host::wrong_held(g, storage.len(), cells.len()))
}
