// The IOPB at an address of the lent memory, for C and Rust to call: all that a viewer made there shows, at once (View 1 to 7).
ghost use Rattle.std.specs.Prelude.{◌≡◌};
ghost use Rattle.meaning.specs.View.{view_of};

use meaning::Iopb;

// stays: a number beside the fields, since C is handed them so
// The number of the viewer's making, and every field; each field is 0 where the number is not.
#[unsafe(no_mangle)]
pub extern "C" fn rosadenca_view(memory: &[u8], at: u32) -> Iopb
    ensures { result ≡ view_of memory.now at }
{
    viewer::view(memory, at)
}
