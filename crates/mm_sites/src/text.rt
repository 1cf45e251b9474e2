// The line that tells of a site.
ghost use Rattle.std.specs.Prelude.{◌≡◌, ◌+◌, ◌≤◌, ◌∷◌, ◌++◌, length, decimal};
ghost use Rattle.arrayvec.specs.ArrayVec.{array_vec_len};
ghost use Rattle.mm_sites.specs.Text as model;

use crate::site_total::SiteTotal;
use arrayvec::ArrayVec;
use itoa::Buffer;

// No line of a site takes more than 48 bytes.
type Text = ArrayVec<u8, 64>;

/// The line of a site that has these totals, its newline with it, and no bytes where the site has no object.
pub fn site_text(site: u32, total: SiteTotal) -> ArrayVec<u8, 64>
    ensures { result.items ≡ model.site_text site total }
{
    let mut text = ArrayVec::new();
    if total.objects == 0 {
        return text;
    }
    put_text(b"site", &mut text);
    put_number(site, &mut text);
    put_number(total.objects, &mut text);
    put_bytes(total.bytes, &mut text);
    text.push(b'\n');
    text
}

fn put_text(text: &[u8], to: &mut Text)
    requires { array_vec_len to.old + length text.now ≤ 64 }
    ensures items { to.new.items ≡ to.old.items ++ text.now }
    ensures len { array_vec_len to.new ≡ array_vec_len to.old + length text.now }
{
    for byte in text {
        to.push(*byte);
    }
}

// Appends a space and a number.
fn put_number(number: u32, to: &mut Text)
    requires { array_vec_len to.old + 11 ≤ 64 }
    ensures items { to.new.items ≡ to.old.items ++ 32 ∷ decimal number }
    ensures len { array_vec_len to.new ≤ array_vec_len to.old + 11 }
{
    to.push(b' ');
    put_text(Buffer::new().format(number).as_bytes(), to);
}

// Appends a space and a number of up to 20 digits.
fn put_bytes(bytes: u64, to: &mut Text)
    requires { array_vec_len to.old + 21 ≤ 64 }
    ensures items { to.new.items ≡ to.old.items ++ 32 ∷ decimal bytes }
    ensures len { array_vec_len to.new ≤ array_vec_len to.old + 21 }
{
    to.push(b' ');
    put_text(Buffer::new().format(bytes).as_bytes(), to);
}
