//! A list of pairs.
ghost use Rattle.std.specs.Prelude.{◌≡◌, [], ◌∷◌, ◌++◌, IfOk, OnOk, OnErr};

use b2_base::fault::OutOfMemory;
use b2_base::text::Text;
use b2_features::feature::copy_pairs;
use std::alloc::Global;
use std::marker::Model;

/// A feature and a value as a pair.
pub(crate) fn pair_with(feature: &Text, value: &Text) -> Result<(Text, Text), OutOfMemory>
    ensures { IfOk result (λ made. made ≡ (feature.now, value.now)) }
{
    Ok((feature.copy()?, value.copy()?))
}

/// The same pair again.
pub fn copy_pair(pair: &(Text, Text)) -> Result<(Text, Text), OutOfMemory>
    ensures { IfOk result (λ made. made ≡ pair.now) }
{
    pair_with(&pair.0, &pair.1)
}

/// Pairs of a feature and a value in order, seen as their list.
pub struct PairList {
    pairs: Vec<(Text, Text)>,
}

/// By hand, so that dropping one is one call.
impl Drop for PairList {
    fn drop(self) {
        let PairList { pairs } = self;
        drop(pairs);
    }
}

impl Model for PairList {
    ghost use Rattle.std.specs.Prelude.{ℕ, List};

    ghost Value = { List (List ℕ × List ℕ) };

    ghost view = { λ l. l.pairs.items };
}

impl PairList {
    /// No pairs; takes no memory.
    pub fn new(alloc: Global) -> PairList
        ensures { result ≡ [] }
    {
        PairList {
            pairs: Vec::new(alloc),
        }
    }

    /// The same pairs as a list; takes no memory.
    pub fn from_vec(pairs: Vec<(Text, Text)>) -> PairList
        ensures { result ≡ pairs.items }
    {
        PairList { pairs }
    }

    /// The pairs again; takes no memory.
    pub fn into_vec(self) -> Vec<(Text, Text)>
        ensures { result.items ≡ self }
    {
        let PairList { pairs } = self;
        pairs
    }

    /// Adds a pair at the end. After an error the list is as before.
    pub fn push(&mut self, feature: Text, value: Text) -> Result<(), OutOfMemory>
        ensures ok { OnOk result (self.new ≡ self.old ++ (feature, value) ∷ []) }
        ensures err { OnErr result (self.new ≡ self.old) }
    {
        self.pairs.push((feature, value))?;
        Ok(())
    }

    /// Adds pairs at the end. After an error the list is as before.
    pub fn append(&mut self, more: PairList) -> Result<(), OutOfMemory>
        ensures ok { OnOk result (self.new ≡ self.old ++ more) }
        ensures err { OnErr result (self.new ≡ self.old) }
    {
        let PairList { pairs: mut more } = more;
        self.pairs.append(&mut more)?;
        Ok(())
    }

    /// The pairs in order; takes no memory.
    pub fn as_slice(&self) -> &[(Text, Text)]
        ensures { result.now ≡ self.now }
    {
        self.pairs.as_slice()
    }

    /// The same pairs again.
    pub fn copy(&self, alloc: Global) -> Result<PairList, OutOfMemory>
        ensures { IfOk result (λ made. made ≡ self.now) }
    {
        let pairs = copy_pairs(alloc, self.as_slice())?;
        Ok(PairList { pairs })
    }
}
