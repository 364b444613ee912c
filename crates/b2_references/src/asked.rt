//! What a request asks for.
use crate::name::TargetName;
use b2_base::list::List;
use b2_base::text::Text;
use b2_props::props::Props;

/// What a request asks for, piece by piece: a main target with a set, or a word that names no target.
#[derive(Drop)]
pub enum AskedPiece {
    Main { name: TargetName, set: Props },
    NoTarget { word: Text },
}

/// The pieces in order.
pub type AskedList = List<AskedPiece>;
