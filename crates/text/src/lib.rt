// Text in lent bytes: parts and decimal numbers, put one after another.
// What does not fit is not put: the bytes stay as they are, and the place comes back.
#![tactic(auto)]

ghost use Rattle.std.specs.Prelude.{◌≡◌, ◌+◌, ◌≤◌, ◌<◌, length};
ghost use Rattle.text.specs.Text.{fits, end_of, spliced, Put};
ghost use Rattle.text.specs.Page.{Offered};
ghost use Rattle.text.specs.Decimal.{decimal};

// Do so many bytes fit from a place on?
fn has_room(room: usize, at: usize, size: usize) -> bool
    ensures { result ≡ fits room at size }
{
    at <= room && size <= room - at
}

// Copies a part to its place, and says where it ends. Text and place, as in digits: put and put_decimal, public over both, call them.
fn copy(text: &mut [u8], at: usize, part: &[u8]) -> usize
    requires { at + length part.now ≤ length text.old }
    ensures { Put text.old at part.now text.new result }
{
    let end = at + part.len();
    text[at..end].copy_from_slice(part);
    end
}

// Puts a part from a place on, and says where it ends. For whoever has bytes and a place; a `Page` is both in one.
pub fn put(text: &mut [u8], at: usize, part: &[u8]) -> usize
    ensures { (result ≡ end_of text.old at part.now) × (text.new ≡ spliced text.old at part.now) }
{
    if !has_room(text.len(), at, part.len()) {
        return at;
    }
    copy(text, at, part)
}

// How many digits a number has.
fn width(n: usize) -> usize
    ensures { result ≡ length (decimal n) }
{
    if n < 10 {
        return 1;
    }
    width(n / 10) + 1
}

// The digit of a number below ten.
fn digit(n: usize) -> u8
    requires { n < 10 }
    ensures { result ≡ 48 + n }
{
    b'0' + n as u8
}

// Puts the digits of a number, of which there are so many, the last one first.
fn digits(text: &mut [u8], at: usize, n: usize, size: usize) -> usize
    requires { (size ≡ length (decimal n)) × (at + size ≤ length text.old) }
    ensures { Put text.old at (decimal n) text.new result }
{
    let end = at + size;
    let mut left = n;
    for place in (at..end).rev() {
        text[place] = digit(left % 10);
        left /= 10;
    }
    end
}

// Puts a number from a place on, and says where it ends. As put, for whoever has bytes and a place.
pub fn put_decimal(text: &mut [u8], at: usize, n: usize) -> usize
    ensures { (result ≡ end_of text.old at (decimal n)) × (text.new ≡ spliced text.old at (decimal n)) }
{
    let size = width(n);
    if !has_room(text.len(), at, size) {
        return at;
    }
    digits(text, at, n, size)
}

// Lent bytes, and the place from which their text goes on.
#[derive(Drop)]
pub struct Page<'a> {
    pub text: &'a mut [u8],
    pub at: usize,
}

impl Page<'_> {
    // Puts a part, and goes on behind it.
    pub fn put(&mut self, part: &[u8])
        ensures { Offered self.old part.now self.new }
    {
        self.at = put(self.text, self.at, part);
    }

    // Puts a number, and goes on behind it.
    pub fn put_decimal(&mut self, n: usize)
        ensures { Offered self.old (decimal n) self.new }
    {
        self.at = put_decimal(self.text, self.at, n);
    }
}
