//! Texts as numbers, and numbers as texts.
ghost use Rattle.std.specs.Prelude.{◌≡◌, ◌⊎◌, ◌+◌, ℕ, List, [], ◌∷◌, ◌++◌, length, slice_get, Some, None};
ghost use Rattle.std.specs.Prelude.{IfErr, IfOk, OnOk, OnErr, IfSome};
ghost use Rattle.std.specs.Option.{option_copied};
ghost use Rattle.halfbrown.specs.Refusal.{Memory, refusal_of};
ghost use Rattle.half_uses.specs.Interner.{number_of, with_text};

use halfbrown::{HashMap, Refusal};
use std::alloc::Global;
use std::marker::Model;

/// Texts, each stored once, and each with a number: the first is 0, the next 1, and so on. As in a compiler, whose names are then
/// copied and compared as numbers.
///
/// ```
/// let mut names = Interner::new(alloc);
/// let x = names.intern("x")?; // 0
/// let y = names.intern("y")?; // 1
/// let again = names.intern("x")?; // 0
/// let name = names.resolve(y); // "y"
/// ```
#[derive(Drop)]
pub struct Interner {
    // A text's number is the index of its pair.
    texts: HashMap<String, ()>,
    alloc: Global,
}

impl Model for Interner {
    ghost use Rattle.std.specs.Prelude.{List, ℕ, map, string_bytes};
    ghost use Rattle.std.specs.Map.{keys_of};

    ghost Value = { List (List ℕ) };

    ghost view = { λ i. map string_bytes (keys_of i.texts.pairs) };
}

impl Interner {
    /// No texts. It takes no memory.
    pub fn new(alloc: Global) -> Interner
        ensures { result ≡ [] }
    {
        Interner {
            texts: HashMap::new(alloc),
            alloc,
        }
    }

    /// How many texts there are.
    pub fn len(&self) -> usize
        ensures { result ≡ length self.now }
    {
        self.texts.len()
    }

    /// The number of a text, which is stored where it is new. Equal texts have equal numbers, different texts different ones, and
    /// no later call changes a number. Only a new text can be refused: memory, or that there are 2^60 texts. On error nothing
    /// changes.
    pub fn intern(&mut self, text: &str) -> Result<usize, Refusal>
        ensures number { IfOk result (λ number. number_of self.new text.now ≡ Some number) }
        ensures resolves { IfOk result (λ number. slice_get self.new number ≡ Some text.now) }
        ensures after { OnOk result (self.new ≡ with_text self.old text.now) }
        ensures kept { (other : List ℕ) (number : ℕ) → number_of self.old other ≡ Some number
            → number_of self.new other ≡ Some number }
        ensures new { OnErr result (number_of self.old text.now ≡ None) }
        ensures why { IfErr result (λ why. (why ≡ Memory) ⊎ (why ≡ refusal_of (length self.old + 1))) }
        ensures err { OnErr result (self.new ≡ self.old) }
    {
        if let Some(number) = self.get(text) {
            return Ok(number);
        }
        let number = self.len();
        self.push(text)?;
        Ok(number)
    }

    // Stores a text that is new.
    fn push(&mut self, text: &str) -> Result<(), Refusal>
        requires { number_of self.old text.now ≡ None }
        ensures after { OnOk result (self.new ≡ self.old ++ text.now ∷ []) }
        ensures why { IfErr result (λ why. (why ≡ Memory) ⊎ (why ≡ refusal_of (length self.old + 1))) }
        ensures err { OnErr result (self.new ≡ self.old) }
    {
        let stored = String::from_str(self.alloc, text)?;
        self.texts.insert_nocheck(stored, ())?;
        Ok(())
    }

    /// The number of a text, where it is stored.
    pub fn get(&self, text: &str) -> Option<usize>
        ensures number { result ≡ number_of self.now text.now }
        ensures resolves { IfSome result (λ number. slice_get self.now number ≡ Some text.now) }
    {
        self.texts.get_index_of(text)
    }

    /// The text of a number, where there is one.
    pub fn resolve(&self, number: usize) -> Option<&str>
        ensures text { option_copied result ≡ slice_get self.now number }
        ensures number { IfSome result (λ text. number_of self.now text.now ≡ Some number) }
    {
        let (text, _) = self.texts.get_index(number)?;
        // Tells the prover that the keys are distinct: `len` states it of the map that it reads.
        prove!(number < self.texts.len());
        Some(text.as_str())
    }
}
