//! Keys whose clones equal them.
ghost use Rattle.std.specs.Prelude.{IsTrue};
ghost use Rattle.std.proofs.Common.{rules, sym};
ghost use Rattle.std.specs.Cmp.Lexicographic.{bytes_decides};
ghost use Rattle.std.specs.String.{string_bytes};

/// A key whose clones equal it. A map of such keys has the trait `Clone`, if its values have it and its builder is
/// `Copy`, and a struct with such a map can derive it.
///
/// ```
/// fn both<M: Clone>(map: &M) -> Result<(M, M), Fail> {
///     Ok((map.clone()?, map.clone()?))
/// }
/// let (copy, other) = both(&ages)?;
/// assert!(rt; copy == ages && other == ages);
/// ```
pub trait EqualClone: Eq + Clone {
    // A clone equals what was cloned.
    ghost clones_equal: { (key copy : Self) → Self.is_clone key copy → IsTrue (Self.eq key copy) };
}

impl EqualClone for u8 {
    ghost clones_equal = { λ key copy same. Prim.search (rules, same, sym) };
}

impl EqualClone for u16 {
    ghost clones_equal = { λ key copy same. Prim.search (rules, same, sym) };
}

impl EqualClone for u32 {
    ghost clones_equal = { λ key copy same. Prim.search (rules, same, sym) };
}

impl EqualClone for u64 {
    ghost clones_equal = { λ key copy same. Prim.search (rules, same, sym) };
}

impl EqualClone for usize {
    ghost clones_equal = { λ key copy same. Prim.search (rules, same, sym) };
}

impl EqualClone for i8 {
    ghost clones_equal = { λ key copy same. Prim.search (rules, same, sym) };
}

impl EqualClone for i16 {
    ghost clones_equal = { λ key copy same. Prim.search (rules, same, sym) };
}

impl EqualClone for i32 {
    ghost clones_equal = { λ key copy same. Prim.search (rules, same, sym) };
}

impl EqualClone for i64 {
    ghost clones_equal = { λ key copy same. Prim.search (rules, same, sym) };
}

impl EqualClone for isize {
    ghost clones_equal = { λ key copy same. Prim.search (rules, same, sym) };
}

impl EqualClone for char {
    ghost clones_equal = { λ key copy same. Prim.search (rules, same, sym) };
}

impl EqualClone for bool {
    ghost clones_equal = { λ key copy same. Prim.search (rules, same, sym) };
}

impl EqualClone for String {
    ghost clones_equal = { λ key copy same.
        (bytes_decides (string_bytes key) (string_bytes copy)).1 (sym same) };
}

impl EqualClone for &str {
    ghost clones_equal = { λ key copy same. Prim.search (rules, same, sym) };
}
