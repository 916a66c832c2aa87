//! Sets of labels as keys, by which a program sums what it measures.
ghost use Rattle.std.specs.Fmt.{WritesOnOk};
ghost use Rattle.std.specs.Map.{keys_of, values_of, lookup};
ghost use Rattle.std.specs.List.{IsDistinct};
ghost use Rattle.std.specs.Option.{option_copied};
ghost use Rattle.std.specs.Prelude.{◌≡◌, ◌≢◌, ◌+◌, ◌^◌, ◌<◌, true, false, None, Some, [], length, sum, unwrap_or};
ghost use Rattle.std.specs.Prelude.{IfErr, IfOk, OnErr, OnOk};
ghost use Rattle.std.specs.String.{string_eq};
ghost use Rattle.std.proofs.Props.{props};
ghost use Rattle.halfbrown.specs.Growth.{capacity_for_insert, IsRefusal};
ghost use Rattle.halfbrown.specs.Iter.{pairs_left};
ghost use Rattle.halfbrown.specs.Pairs.{value_of, put};
ghost use Rattle.half_uses.specs.Labels.{labels_number, others_text, with_more};

use halfbrown::{DefaultHashBuilder, Equivalent, HashMap, Iter, Refusal, Refused};
use std::alloc::Global;
use std::fmt::{Display, Formatter, Result as Printed, Write};
use std::hash::{BuildHasher, Hash, Hasher};

/// Labels of a measurement: a text for each name, such as `GET` for `method`. They are keys: two sets are equal where each name has
/// the same text in both, in whatever order these were set, and equal sets hash alike.
///
/// A set is hashed where it is searched for in a table, and then each of its labels is, by the default builder.
///
/// ```
/// let mut labels = Labels::new(alloc);
/// labels.set(String::from_str(alloc, "method")?, String::from_str(alloc, "GET")?)?;
/// labels.set(String::from_str(alloc, "status")?, String::from_str(alloc, "200")?)?;
/// let mut users = HashMap::<Labels, u64>::new(alloc);
/// users.insert(labels, 7)?;
/// ```
#[derive(Drop)]
pub struct Labels {
    texts: HashMap<String, String>,
    // A name that stood twice would count twice in the hash, and once in `==`.
    ghost distinct: { IsDistinct string_eq (keys_of texts.pairs) } by { Prim.hlevel props },
}

impl Labels {
    /// No labels. It takes no memory.
    ///
    /// ```
    /// let labels = Labels::new(alloc);
    /// ```
    pub fn new(alloc: Global) -> Labels
        ensures { result.texts.pairs ≡ [] }
    {
        Labels {
            texts: HashMap::new(alloc),
        }
    }

    /// How many labels there are.
    pub fn len(&self) -> usize
        ensures { result ≡ length self.now.texts.pairs }
    {
        self.texts.len()
    }

    /// The text of a name, where there is one. It costs one search.
    ///
    /// ```
    /// let method = labels.get("method").map(|text| text.as_str());
    /// ```
    pub fn get<Q: Equivalent<String>>(&self, name: Q) -> Option<&String>
        ensures { option_copied result ≡ lookup (Q.equivalent name) self.now.texts.pairs }
    {
        self.texts.get(name)
    }

    /// Each name with its text, in the order in which the names were first set.
    ///
    /// ```
    /// for (name, text) in labels.iter() {
    ///     report(name, text)?;
    /// }
    /// ```
    pub fn iter(&self) -> Iter<'_, String, String>
        ensures { pairs_left result ≡ self.now.texts.pairs }
    {
        self.texts.iter()
    }

    /// Gives a name its text, and returns the one that it had. It costs one search. Fails only where the map
    /// needs memory, and then nothing changes, and the error has name, text and reason.
    ///
    /// ```
    /// let before = labels.set(String::from_str(alloc, "status")?, String::from_str(alloc, "404")?)?;
    /// ```
    pub fn set(
        &mut self,
        name: String,
        text: String,
    ) -> Result<Option<String>, Refused<String, String>>
        ensures before { IfOk result (λ old. old ≡ value_of string_eq self.old.texts.pairs name) }
        ensures after { OnOk result (self.new.texts.pairs ≡ put string_eq self.old.texts.pairs name text) }
        ensures refused { IfErr result (λ refused. IsRefusal (capacity_for_insert 32 string_eq self.old.texts name) refused.why) }
        ensures err { OnErr result (self.new.texts ≡ self.old.texts) }
        ensures handed_back { IfErr result (λ refused. (refused.key ≡ name) × (refused.value ≡ text)) }
    {
        self.texts.insert(name, text)
    }

    // A number that does not depend on the order of the labels: the sum of what each hashes to, of which 64 bits are kept.
    fn number(&self) -> u64
        ensures { result ≡ labels_number self.now.texts.pairs }
    {
        let builder = DefaultHashBuilder::new();
        let mut number: u64 = 0;
        for (name, text) in &self.texts {
            number = number.wrapping_add(builder.hash_one((name, text)));
        }
        number
    }
}

/// Labels print in order. A name or text may itself have `=` or a comma.
///
/// ```
/// let printed = format!(in alloc; "{labels}")?; // method=GET, status=200
/// ```
impl Display for Labels {
    ghost use Rattle.half_uses.specs.Labels.{labels_text};

    ghost output = { λ labels. Some (labels_text labels.texts.pairs) };

    fn fmt<W: Write>(&self, f: &mut Formatter<W>) -> Printed {
        let mut labels = self.iter();
        if let Some((name, text)) = labels.next() {
            write!(f, "{name}={text}")?;
            write_others(labels, f)?;
        }
        Ok(())
    }
}

// Prints the labels that follow one.
fn write_others<W: Write>(labels: Iter<'_, String, String>, f: &mut Formatter<W>) -> Printed
    ensures { WritesOnOk W.write_str_gives f.old result (others_text (pairs_left labels.entry)) f.new }
{
    for (name, text) in labels {
        write!(f, ", {name}={text}")?;
    }
    Ok(())
}

impl PartialEq for Labels {
    ghost use Rattle.std.specs.Cmp.{on_per, partial_equiv_from_equiv};
    ghost use Rattle.std.specs.String.{string_eq_equiv};
    ghost use Rattle.halfbrown.specs.Equality.{same_pairs, equal_maps_per};

    ghost eq = { λ a b. same_pairs string_eq string_eq a.texts.pairs b.texts.pairs };

    ghost laws = { on_per (λ labels. labels.texts)
        (equal_maps_per string_eq string_eq string_eq_equiv (partial_equiv_from_equiv string_eq_equiv)) };

    /// Whether both have the same texts for the same names, in any order.
    fn eq(&self, other: &Labels) -> bool {
        self.texts == other.texts
    }
}

impl Eq for Labels {
    ghost use Rattle.std.proofs.lemmas.Cmp.{on_equiv};
    ghost use Rattle.std.specs.String.{string_eq_equiv};
    ghost use Rattle.halfbrown.specs.Equality.{equal_maps_equiv};

    ghost laws = { on_equiv (λ labels. labels.texts)
        (equal_maps_equiv string_eq string_eq string_eq_equiv string_eq_equiv) };
}

impl Hash for Labels {
    ghost use Rattle.std.specs.Hash as fed;
    ghost use Rattle.half_uses.specs.LabelSums.{equal_alike};

    ghost hash_input = { λ labels. fed.u64 (labels_number labels.texts.pairs) };

    ghost respects_eq = { λ a b same. equal_alike a.texts.pairs b.texts.pairs a.distinct b.distinct same };

    fn hash<H: Hasher>(&self, state: &mut H) {
        state.write_u64(self.number());
    }
}

/// Values that are summed by key, such as by labels, and the sum of them all.
///
/// ```
/// let mut requests = Sums::<Labels>::new(alloc);
/// if requests.total() < u64::MAX {
///     requests.add(labels, 1)?;
/// }
/// ```
#[derive(Drop)]
pub struct Sums<K: Eq + Hash> {
    by_key: HashMap<K, u64>,
    total: u64,
    ghost adds_up: { total ≡ sum (values_of by_key.pairs) },
}

impl<K: Eq + Hash> Sums<K> {
    /// No sums. It takes no memory.
    ///
    /// ```
    /// let sums = Sums::<Labels>::new(alloc);
    /// ```
    pub fn new(alloc: Global) -> Sums<K>
        ensures { result.by_key.pairs ≡ [] }
    {
        Sums {
            by_key: HashMap::new(alloc),
            total: 0,
        }
    }

    /// The sum over all keys. It takes one step.
    ///
    /// ```
    /// let fits = sums.total() <= u64::MAX - 512;
    /// ```
    pub fn total(&self) -> u64
        ensures { result ≡ sum (values_of self.now.by_key.pairs) }
    {
        self.total
    }

    /// The sum of a key, where a value was added to it. It costs one search.
    ///
    /// ```
    /// let sum = sums.get(&labels).unwrap_or(0);
    /// ```
    pub fn get(&self, key: &K) -> Option<u64>
        ensures { result ≡ value_of K.eq self.now.by_key.pairs key.now }
    {
        self.by_key.get(key).copied()
    }

    /// Each key with its sum, in the order in which they first came.
    ///
    /// ```
    /// for (labels, sum) in sums.iter() {
    ///     report(labels, *sum)?;
    /// }
    /// ```
    pub fn iter(&self) -> Iter<'_, K, u64>
        ensures { pairs_left result ≡ self.now.by_key.pairs }
    {
        self.by_key.iter()
    }

    /// Adds a value to the sum of its key. Then `total` is larger by exactly this value, and has to fit. It costs one search. Fails
    /// only where the map needs memory, and then nothing changes.
    ///
    /// ```
    /// sums.add(labels, 512)?;
    /// ```
    #[tactic(auto, using(halfbrown::proofs::callers::Values::value_facts))]
    pub fn add(&mut self, key: K, value: u64) -> Result<(), Refusal>
    where
        K: Drop,
        requires { sum (values_of self.old.by_key.pairs) + value < 2 ^ 64 }
        ensures total { OnOk result (sum (values_of self.new.by_key.pairs)
            ≡ sum (values_of self.old.by_key.pairs) + value) }
        ensures key { OnOk result (self.new.by_key.pairs ≡ with_more K.eq self.old.by_key.pairs key value) }
        ensures equals { OnOk result ((same : K) → K.eq key same ≡ true → value_of K.eq self.new.by_key.pairs same
            ≡ Some (unwrap_or (value_of K.eq self.old.by_key.pairs key) 0 + value)) }
        ensures others { OnOk result ((other : K) → K.eq key other ≡ false
            → value_of K.eq self.new.by_key.pairs other ≡ value_of K.eq self.old.by_key.pairs other) }
        ensures needs { OnErr result (capacity_for_insert 32 K.eq self.old.by_key key ≢ None) }
        ensures err { OnErr result (self.new.by_key ≡ self.old.by_key) }
    {
        *self.by_key.entry(key)?.or_insert(0) += value;
        self.total += value;
        Ok(())
    }
}
