//! What the words of a request leave open.
use b2_base::text::Text;

/// A feature and a value, and the place of the word that gave them, counted from 0.
#[derive(Drop)]
pub struct WordChoice {
    pub pair: (Text, Text),
    pub word: usize,
}

/// Choices of which one goes into each set, and the feature of which they all are, where they join others of it.
#[derive(Drop)]
pub struct Factor {
    pub key: Option<Text>,
    pub choices: Vec<WordChoice>,
}
