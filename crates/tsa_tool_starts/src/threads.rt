//! How the threads of a run begin, by its words.
ghost use Rattle.std.specs.Prelude.{◌≡◌, ◌++◌, ◌∷◌, [], true, false, map, string_bytes, IfOk, IsErrOf};
ghost use Rattle.tsa_mean.specs.Starts.{Begin};
ghost use Rattle.tsa_tool_starts.specs.Starts.{AreGoodWords, IsGoodWord, IsRefused};
ghost use Rattle.tsa_tool_starts.specs.Units.{items_in};
ghost use Rattle.tsa_tool_starts.specs.declared.refusal.StartRefusal.{StartRefusal as Refusal};

use crate::refusal::StartRefusal;
use crate::starter::Starter;
use tsa_base::NoMemory;
use tsa_mean::ThreadStart;

impl Starter<'_, '_> {
    /// Adds how a thread begins by a word, where that says it, and tells whether it does.
    fn put_start(&self, starts: &mut Vec<ThreadStart>, word: &[u8]) -> Result<bool, NoMemory>
        ensures good { IfOk result (λ is_good. is_good ≡ true → (b : Begin) × (IsGoodWord (items_in self.now) self.now.places.now word.now b
            × (starts.new.items ≡ starts.old.items ++ b ∷ []))) }
        ensures bad { IfOk result (λ is_good. is_good ≡ false → (b : Begin) → IsGoodWord (items_in self.now) self.now.places.now word.now b → ⊥) }
    {
        match self.start(word)? {
            Some(start) => {
                starts.push(start)?;
                Ok(true)
            }
            None => Ok(false),
        }
    }

    /// How threads begin by the words of a run, in order, or the number of the first word that says no start, from 0.
    pub fn starts(&self, words: &[String]) -> Result<Vec<ThreadStart>, StartRefusal>
        ensures starts { IfOk result (λ starts. AreGoodWords (items_in self.now) self.now.places.now (map string_bytes words.now) starts.items) }
        ensures refused { (number : _) → IsErrOf result (Refusal.Word number)
            → IsRefused (items_in self.now) self.now.places.now (map string_bytes words.now) number }
    {
        let mut starts = Vec::new(self.alloc);
        'each: for number in 0..words.len() {
            if !self.put_start(&mut starts, words[number].as_bytes())? {
                return Err(StartRefusal::Word { number });
            }
        }
        Ok(starts)
    }
}
