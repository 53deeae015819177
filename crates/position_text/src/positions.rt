// A position's text: the sign, and the text of the length without it. Only this crate calls these
// functions.
ghost use Rattle.std.specs.Prelude.{◌≡◌, ◌≤◌, length};
ghost use Rattle.printer.specs.Put.{put_in, place_after};
ghost use Rattle.position_text.specs.Texts.{sign_text, text_of_position, rounded_position};

use crate::lengths;
use big::Big;

// A `-`, or nothing.
fn put_sign(out: &mut [u8], b: Big) -> usize
    ensures place { result ≡ place_after (length out.old) 0 (length (sign_text b)) }
    ensures put { out.new ≡ put_in out.old 0 (sign_text b) }
{
    if big::is_negative(b) {
        return printer::put_byte(out, 0, 45);
    }
    0
}

pub fn put_exact(out: &mut [u8], b: Big) -> usize
    requires { 70 ≤ length out.old }
    ensures place { result ≡ place_after (length out.old) 0 (length (text_of_position b)) }
    ensures put { out.new ≡ put_in out.old 0 (text_of_position b) }
{
    let next = put_sign(out, b);
    lengths::put_exact(out, next, big::size_of(b))
}

pub fn put_rounded(out: &mut [u8], b: Big) -> usize
    requires { 37 ≤ length out.old }
    ensures place { result ≡ place_after (length out.old) 0 (length (rounded_position b)) }
    ensures put { out.new ≡ put_in out.old 0 (rounded_position b) }
{
    let next = put_sign(out, b);
    lengths::put_rounded(out, next, big::size_of(b))
}
