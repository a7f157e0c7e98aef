// What the kernels ask of a lane. N is the number of its bits. The impls of 8, 16 and 32 bits are alike, line for line a sum, a shift or a cast of
// the wider type: over a trait each of these would be a method with an impl for each width, and as many lines would stay.
ghost use Rattle.std.specs.Prelude.{◌≡◌, ◌+◌, ◌*◌, ◌^◌, ◌<◌, ◌≤◌, map, length, get_or, ℤ, pos, ◌*ℤ◌};
ghost use Rattle.std.specs.Mem.{type_size};
ghost use Rattle.integer.specs.Number.{clamp, clamps, rounded, signed_by};
ghost use Rattle.integer.specs.Lane.{saturated, wrapped, clamped, doubled_high, Toward};
ghost use Rattle.isa.specs.Register.{bits, pairs, element};
ghost use Rattle.isa.specs.Segment.{bytes_of};
ghost use Rattle.isa.specs.Stage.{LanesOf, BytesOfLanes};
ghost use Rattle.isa.specs.declared.types.Size.{Size};

// A lane of a segment that has K of them.
pub trait Lane<const K: usize>: Copy {
    ghost size: { Size };

    ghost value: { Self → ℤ };

    // The lanes of the bytes b.
    fn lanes(b: [u8; 16]) -> [Self; K]
        ensures { LanesOf size (map value result) (bytes_of b) };

    // The bytes of the lanes s.
    fn bytes(s: [Self; K]) -> [u8; 16]
        ensures { BytesOfLanes size result (map value s) };

    // c and the product of a and b, or its negative, doubled and rounded to its upper half, clamped.
    fn round(c: Self, a: Self, b: Self, minus: bool) -> Self
        ensures { value result ≡ saturated (bits size) (value c) (signed_by minus (value a *ℤ value b)) };

    // c plus or minus the product of a and b, modulo 2^N.
    fn mla(c: Self, a: Self, b: Self, minus: bool) -> Self
        ensures { value result ≡ wrapped (bits size) (value c) (signed_by minus (value a *ℤ value b)) };

    // c plus or minus b, modulo 2^N.
    fn add(c: Self, b: Self, minus: bool) -> Self
        ensures { value result ≡ wrapped (bits size) (value c) (signed_by minus (value b)) };

    // c plus or minus b, clamped.
    fn sat(c: Self, b: Self, minus: bool) -> Self
        ensures { value result ≡ clamped (bits size) (value c) (signed_by minus (value b)) };

    // The upper half of the doubled product of a and b, clamped.
    fn doubled_high(a: Self, b: Self) -> Self
        ensures { value result ≡ doubled_high (bits size) (value a) (value b) };

    ghost count: { K ≡ 2 * pairs size };

    // An array of them is no larger than memory.
    ghost fits: { K * type_size Self.row < 2 ^ 63 };
}

// A lane of the families by element. A sum of one is kept in a wider type until it is clamped, so that the flag can be told of it.
pub trait ByElement<const K: usize>: Lane<K> {
    type Sum: Copy;

    ghost sum: { Self.Sum → ℤ };

    // The sum of a lane that the form leaves out.
    fn none() -> Self::Sum
        ensures { sum result ≡ pos 0 };

    // c and the product of a and b, or its negative, doubled and rounded to its upper half. Past the range, c's sign tells the end.
    fn rounding(c: Self, a: Self, b: Self, minus: bool) -> Self::Sum
        ensures { (sum result ≡ rounded (bits Self.size) (Self.value c) (signed_by minus (Self.value a *ℤ Self.value b))) × Toward (bits Self.size) (sum result) (Self.value c) };

    // s brought into N bits. `toward` has the sign of the end that s is past.
    fn narrow(s: Self::Sum, toward: Self) -> Self
        requires { Toward (bits Self.size) (sum s) (Self.value toward) }
        ensures { Self.value result ≡ clamp (bits Self.size) (sum s) };

    // Whether s has no place in N bits.
    fn overflows(s: Self::Sum) -> bool
        ensures { result ≡ clamps (bits Self.size) (sum s) };

    // The element at the index of the segment at m. Only its own bytes are read: a processor waits where a segment is read of which parts were just stored.
    fn element(file: &[u8], m: usize, index: usize) -> Self
        requires m_in_bounds { m + 16 ≤ length file.now }
        requires index_bound { index < K }
        ensures { Self.value result ≡ element Self.size (λ i. get_or file.now (m + i) 0) index };

    ghost sums_fit: { K * type_size Self.Sum.row < 2 ^ 63 };
}
