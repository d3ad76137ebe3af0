//! The laws of the wire, over the definitions alone. The functions do nothing; their contracts are the laws, for all
//! values.

ghost use Rattle.std.specs.Prelude.{◌≡◌, ℕ, List, Some};
ghost use Rattle.otel_protobuf.specs.Reading.{Raw, ReadsAs, fields_in, read_64, read_varint};
ghost use Rattle.otel_protobuf.specs.Wire.{Fields, FieldsFit, fields_bytes};

/// What is written reads back as the message, where numbers of eight and of four bytes have no more than these.
pub fn messages_read_back()
    ensures { (fs : Fields) → FieldsFit fs → ReadsAs (fields_bytes fs) fs }
{}

/// A program, which reads numbers of 64 bits, reads what the grammar does or nothing.
pub fn programs_read_the_grammar()
    ensures { (bs : List ℕ) (fields : List (ℕ × Raw)) → fields_in read_64 bs ≡ Some fields
        → fields_in read_varint bs ≡ Some fields }
{}
