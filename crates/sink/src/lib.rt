// Output into a lent buffer: all of it is counted, and as much as fits is written.
#![tactic(auto)]

ghost use Rattle.std.specs.Prelude.{◌≡◌, [], ◌∷◌, decimal};
ghost use Rattle.std.specs.Fmt.{signed_decimal};
ghost use Rattle.sink.specs.Output.{laid, Wrote};

use itoa::{Buffer, Integer};

#[derive(Debug, Drop)]
pub struct Sink<'a> {
    out: &'a mut [u8],
    // of all output, also of what lies past the buffer's end: so no slice of the buffer says it
    len: usize,
}

impl<'a> Sink<'a> {
    // Nothing is written yet. `out` holds the output from its start on.
    pub fn new(out: &'a mut [u8]) -> Sink<'a>
        ensures empty { result.len ≡ 0 }
        ensures buffer { result.out.now ≡ out.old }
        ensures same { result.out.ghost_name ≡ out.entry.ghost_name }
    {
        Sink { out, len: 0 }
    }

    // How long the output is so far, with what did not fit. The count stops at `usize::MAX`.
    pub fn len(&self) -> usize
        ensures { result ≡ self.now.len }
    {
        self.len
    }

    // Adds `text` to the output.
    pub fn text(&mut self, text: &[u8])
        ensures { Wrote self.old self.new text.now }
    {
        let Sink { out, len } = self;
        put(out, *len, text);
        *len = len.saturating_add(text.len());
    }

    // Adds one byte.
    pub fn byte(&mut self, b: u8)
        ensures { Wrote self.old self.new (b ∷ []) }
    {
        self.text(&[b]);
    }

    // Adds the digits of `n`, with no leading zero, after a minus sign where it is below zero.
    pub fn number<I: Integer>(&mut self, n: I)
        ensures { Wrote self.old self.new (I.text n) }
    {
        let mut buffer = Buffer::new();
        self.text(buffer.format(n).as_bytes());
    }
}

// Copies `text` into `out` from `at` on, as far as `out` reaches.
fn put(out: &mut [u8], at: usize, text: &[u8])
    ensures { out.new ≡ laid out.old at text.now }
{
    // Not by `split_at_mut_checked`, which goes in at the very end too: there may then be nothing to copy, and a byte
    // took five times as long.
    if at < out.len() {
        let (_before, room) = out.split_at_mut(at);
        let n = room.len().min(text.len());
        room[..n].copy_from_slice(&text[..n]);
    }
}

#[cfg(test)]
mod tests {
    use super::*;

    // Writes "abc", and answers the count.
    fn abc(out: &mut [u8]) -> usize
        ensures written { out.new ≡ laid out.old 0 (97 ∷ (98 ∷ (99 ∷ []))) }
        ensures counted { result ≡ 3 }
    {
        let mut sink = Sink::new(out);
        sink.text(b"abc");
        sink.len()
    }

    #[test]
    fn writes_what_fits(rt: HostRuntime) {
        let mut short = *b"..";
        let mut exact = *b"...";
        let mut long = *b".....";
        let counts = [
            abc(&mut []),
            abc(&mut short),
            abc(&mut exact),
            abc(&mut long),
        ];
        assert_eq!(rt; counts, [3; 4]);
        assert_eq!(rt; short, *b"ab");
        assert_eq!(rt; exact, *b"abc");
        assert_eq!(rt; long, *b"abc..");
    }

    // The text of each type, as a caller at that type knows it.
    fn unsigned(sink: &mut Sink, n: u32)
        ensures { Wrote sink.old sink.new (decimal n) }
    {
        sink.number(n);
    }

    fn signed(sink: &mut Sink, z: i32)
        ensures { Wrote sink.old sink.new (signed_decimal z) }
    {
        sink.number(z);
    }

    #[test]
    fn writes_numbers(rt: HostRuntime) {
        let mut out = [b'.'; 48];
        let mut sink = Sink::new(&mut out);
        for n in [0, 9, 10, 4294967295] {
            unsigned(&mut sink, n);
            sink.byte(b' ');
        }
        for z in [i32::MIN, -1, 0, i32::MAX] {
            signed(&mut sink, z);
            sink.byte(b' ');
        }
        assert_eq!(rt; sink.len(), 46);
        assert_eq!(rt; out, *b"0 9 10 4294967295 -2147483648 -1 0 2147483647 ..");
    }
}
