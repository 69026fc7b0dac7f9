// A text that is being made: putting numbers behind it.
ghost use Rattle.std.specs.Prelude.{◌≡◌, ◌+◌, ◌≤◌, ◌++◌, length};
ghost use Rattle.arrayvec.specs.ArrayString.{array_string_len};

use arrayvec::ArrayString;
use itoa::{Buffer, Integer};

// How many bytes a tray has. No line takes more.
pub const TRAY: usize = 80;

// A text that fits a tray.
pub(crate) type Text = ArrayString<TRAY>;

// Puts a number in decimals behind the text.
pub(crate) fn put_number<N: Integer>(text: &mut Text, n: N)
    requires { array_string_len text.old + N.MAX_STR_LEN ≤ 80 }
    ensures text { text.new.bytes ≡ text.old.bytes ++ N.text n }
    ensures len { array_string_len text.new ≤ array_string_len text.old + N.MAX_STR_LEN }
{
    text.push_str(Buffer::new().format(n));
}

// Puts a label and a number behind the text.
pub(crate) fn put_labelled<N: Integer>(text: &mut Text, label: &str, n: N)
    requires { array_string_len text.old + length label.now + N.MAX_STR_LEN ≤ 80 }
    ensures text { text.new.bytes ≡ text.old.bytes ++ label.now ++ N.text n }
    ensures len { array_string_len text.new ≤ array_string_len text.old + length label.now + N.MAX_STR_LEN }
{
    text.push_str(label);
    put_number(text, n);
}
