//! Where the bytes of a message go: to a count, or to the end of a vector. The last ones come first, so that the length
//! of a message within another one is known when it is put before it.

ghost use Rattle.std.specs.Prelude.{◌≡◌, ℕ, ◌+◌, ◌-◌, ◌*◌, ◌^◌, ◌<◌, ◌≤◌, ◌++◌, ◌∷◌, [], List, IfSome, IsTrue, drop};
ghost use Rattle.std.specs.Prelude.{false, length, take, true, vec_len};
ghost use Rattle.std.specs.Int.{cast_unsigned, to_be_bytes, w64, w128};
ghost use Rattle.otel_protobuf.specs.Progress.{Takes, TakesFields};
ghost use Rattle.otel_protobuf.specs.Wire.{bytes, fixed32, fixed64, key_bytes, one, unless_empty, unless_zero};
ghost use Rattle.otel_protobuf.specs.Wire.{varint, varint_bytes};

use std::alloc::Global;
use std::marker::Model;

/// Where the bytes of a message go, from its last field to its first. Where room or a number does not suffice, it takes
/// note, and answers so in the end: what writes a message need not ask at each field.
#[derive(Drop)]
pub struct Sink {
    out: Vec<u8>,
    // Where the message begins in `out`, which ends where the message does.
    begun: usize,
    // How many bytes there is room for, between that and what is written.
    left: usize,
    only_counts: bool,
    is_whole: bool,
}

impl Model for Sink {
    ghost use Rattle.std.specs.Prelude.{◌≡◌, ◌+◌, ◌≤◌, drop, false, take, true, vec_len};
    ghost use Rattle.otel_protobuf.specs.Progress.{Progress};

    ghost Value = { Progress };

    ghost view = { λ sink. record {
      before = take sink.begun sink.out.items;
      only_counts = sink.only_counts;
      is_whole = sink.is_whole;
      left = sink.left;
      written = drop (sink.begun + sink.left) sink.out.items;
    } };

    ghost invariant = { λ sink. (sink.begun ≤ vec_len sink.out)
        × (sink.only_counts ≡ true → vec_len sink.out ≡ 0)
        × (sink.only_counts ≡ false → sink.begun + sink.left ≤ vec_len sink.out) };
}

impl Sink {
    /// It counts a message, and writes nothing.
    pub fn counting(alloc: Global) -> Sink
        ensures { result
            ≡ record { before = []; only_counts = true; is_whole = true; left = 2 ^ 64 - 1; written = [] } }
    {
        Sink {
            out: Vec::new(alloc),
            begun: 0,
            left: usize::MAX,
            only_counts: true,
            is_whole: true,
        }
    }

    /// It writes a message over the bytes from a place on, which it fills from their end.
    pub fn over(out: Vec<u8>, begun: usize) -> Sink
        requires { begun ≤ vec_len out }
        ensures { result ≡ record {
          before = take begun out.items;
          only_counts = false;
          is_whole = true;
          left = vec_len out - begun;
          written = [];
        } }
    {
        let left = out.len() - begun;
        Sink {
            out,
            begun,
            left,
            only_counts: false,
            is_whole: true,
        }
    }

    /// How many bytes a counted message has; nothing where something went wrong.
    pub fn total(&self) -> Option<usize>
        ensures { IfSome result (λ total. IsTrue self.now.is_whole × (total + self.now.left ≡ 2 ^ 64 - 1)) }
    {
        if self.is_whole {
            Some(usize::MAX - self.left)
        } else {
            None
        }
    }

    /// The bytes before, and after them those of the message, if that is whole and fills its place.
    pub fn into_bytes(self) -> (Vec<u8>, bool)
        ensures whole { IsTrue result.1
            → IsTrue self.is_whole × (self.left ≡ 0) × (result.0.items ≡ self.before ++ self.written) }
        ensures cut { result.1 ≡ false → result.0.items ≡ self.before }
    {
        let Sink {
            mut out,
            begun,
            left,
            is_whole,
            ..
        } = self;
        let fills = is_whole && left == 0;
        if !fills {
            out.truncate(begun);
        }
        (out, fills)
    }

    /// Takes note that something went wrong.
    pub fn fail(&mut self)
        ensures { (bytes : List ℕ) → Takes self.old self.new bytes }
    {
        self.is_whole = false;
    }

    /// How many bytes there is room for.
    #[inline(always)]
    pub fn left(&self) -> usize
        ensures { result ≡ self.now.left }
    {
        self.left
    }

    /// Takes bytes.
    #[inline(always)]
    fn take(&mut self, bytes: &[u8])
        ensures { Takes self.old self.new bytes.now }
    {
        let Some(left) = self.left.checked_sub(bytes.len()) else {
            self.is_whole = false;
            return;
        };
        if !self.only_counts {
            let begin = self.begun + left;
            let end = self.begun + self.left;
            self.out[begin..end].copy_from_slice(bytes);
        }
        self.left = left;
    }

    /// Takes a byte.
    #[inline(always)]
    fn byte(&mut self, byte: u8)
        ensures { Takes self.old self.new (byte ∷ []) }
    {
        let Some(left) = self.left.checked_sub(1) else {
            self.is_whole = false;
            return;
        };
        if !self.only_counts {
            let begin = self.begun + left;
            self.out[begin] = byte;
        }
        self.left = left;
    }

    #[inline(always)]
    fn varint(&mut self, number: u64)
        ensures { Takes self.old self.new (varint_bytes number) }
    {
        if number < 128 {
            self.byte(number as u8);
        } else {
            self.long_varint(number);
        }
    }

    /// A number of more than seven bits: those above the lowest seven come first.
    fn long_varint(&mut self, number: u64)
        ensures { Takes self.old self.new (varint_bytes number) }
    {
        if number < 128 {
            self.byte(number as u8);
        } else {
            self.long_varint(number / 128);
            self.byte((128 + number % 128) as u8);
        }
    }

    #[inline(always)]
    fn key(&mut self, number: u32, kind: u32)
        requires { kind < 8 }
        ensures { Takes self.old self.new (key_bytes number kind) }
    {
        self.varint(8 * number as u64 + kind as u64);
    }

    /// The key of a field whose length was taken before.
    #[inline(always)]
    pub fn sized_key(&mut self, number: u32)
        ensures { Takes self.old self.new (key_bytes number 2) }
    {
        self.key(number, 2);
    }

    /// How many bytes were taken since so much room was left.
    #[inline(always)]
    pub fn length_since(&mut self, end: usize)
        ensures { Takes self.old self.new (varint_bytes (end - self.old.left)) }
    {
        self.varint(end.saturating_sub(self.left) as u64);
    }

    /// A field that holds a number by seven bits a byte, also where that is 0.
    pub fn varint_field(&mut self, number: u32, value: u64)
        ensures { TakesFields self.old self.new (one number (varint value)) }
    {
        self.varint(value);
        self.key(number, 0);
    }

    /// A field that holds a number of eight bytes, also where that is 0.
    pub fn fixed64_field(&mut self, number: u32, value: u64)
        ensures { TakesFields self.old self.new (one number (fixed64 value)) }
    {
        self.take(&value.to_le_bytes());
        self.key(number, 1);
    }

    /// A field that holds bytes, also where there are none.
    pub fn bytes_field(&mut self, number: u32, value: &[u8])
        ensures { TakesFields self.old self.new (one number (bytes value.now)) }
    {
        self.take(value);
        self.varint(value.len() as u64);
        self.sized_key(number);
    }

    /// A field that holds a number by seven bits a byte; 0 is left out.
    pub fn number(&mut self, number: u32, value: u64)
        ensures { TakesFields self.old self.new (unless_zero number varint value) }
    {
        if value != 0 {
            self.varint_field(number, value);
        }
    }

    /// A field that holds a number of eight bytes; 0 is left out.
    pub fn fixed64(&mut self, number: u32, value: u64)
        ensures { TakesFields self.old self.new (unless_zero number fixed64 value) }
    {
        if value != 0 {
            self.fixed64_field(number, value);
        }
    }

    /// A field that holds a number of four bytes; 0 is left out.
    pub fn fixed32(&mut self, number: u32, value: u32)
        ensures { TakesFields self.old self.new (unless_zero number fixed32 value) }
    {
        if value != 0 {
            self.take(&value.to_le_bytes());
            self.key(number, 5);
        }
    }

    /// A field that holds bytes; where there are none it is left out.
    pub fn bytes(&mut self, number: u32, value: &[u8])
        ensures { TakesFields self.old self.new (unless_empty number value.now) }
    {
        if !value.is_empty() {
            self.bytes_field(number, value);
        }
    }
}
