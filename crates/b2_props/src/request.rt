//! Requests: the words of a command line as targets and sets of properties.
ghost use Rattle.std.specs.Prelude.{◌≡◌, [], ◌++◌, ◌∷◌, None, IfOk, IfErr, OnOk, map, fold};
ghost use Rattle.std.specs.List.{AllByRecursion};
ghost use Rattle.b2_props.specs.Sets.{IsSet};
ghost use Rattle.b2_props.specs.Words.{first_of, target_words, word_fault, IsBy};
ghost use Rattle.b2_props.specs.Requests.{word_ways, joined, request_ways, request_sets, row_set, row_fault, request_fault};
ghost use Rattle.b2_props.specs.Ways.{ways_in, IsPlaced};

use crate::clashes::row_clash;
use crate::pair_list::copy_pair;
use crate::product::product;
use crate::props::Props;
use crate::refinement::set_of;
use crate::request_fault::RequestFault;
use crate::ways::WayList;
use crate::word_choice::WordChoice;
use crate::words::{are_properties, read_segments, slashes};
use b2_base::fault::OutOfMemory;
use b2_base::list::List;
use b2_base::text::Text;
use b2_base::text_list::TextList;
use b2_features::registry::Registry;
use std::alloc::Global;

/// Sets in order.
pub type PropsList = List<Props>;

/// What a command line asks for: for each set in order each target in order. Without targets the project of Jamroot
/// is asked for; there is always a set.
#[derive(Drop)]
pub struct Request {
    pub targets: TextList,
    pub sets: PropsList,
}

/// Reads the word at a place.
fn take_word(
    alloc: Global,
    registry: &Registry,
    place: usize,
    word: &Text,
    targets: &mut TextList,
    ways: &mut WayList,
) -> Result<(), RequestFault>
    requires { IsPlaced ways.old }
    ensures targets { OnOk result (targets.new ≡ targets.old ++ target_words registry.now (word.now ∷ [])) }
    ensures ways { OnOk result (ways_in ways.new ≡ fold joined (ways_in ways.old) (word_ways registry.now place word.now)) }
    ensures placed { OnOk result (IsPlaced ways.new) }
    ensures ok { OnOk result (word_fault registry.now word.now ≡ None) }
    ensures cause { IfErr result (IsBy (word_fault registry.now word.now)) }
{
    let segments = slashes(alloc, word)?;
    if !are_properties(registry, segments.as_slice()) {
        targets.push(word.copy()?)?;
        return Ok(());
    }
    let pairs = read_segments(alloc, registry, word, segments.as_slice())?;
    ways.join_word(alloc, registry, place, pairs.as_slice())?;
    Ok(())
}

/// The targets and the ways of some words, or why the first word that is not read is none.
fn read_words(
    alloc: Global,
    registry: &Registry,
    words: &[Text],
) -> Result<(TextList, WayList), RequestFault>
    ensures targets { IfOk result (λ read. read.0 ≡ target_words registry.now words.now) }
    ensures ways { IfOk result (λ read. ways_in read.1 ≡ request_ways registry.now words.now) }
    ensures ok { OnOk result (first_of (word_fault registry.now) words.now ≡ None) }
    ensures cause { IfErr result (IsBy (first_of (word_fault registry.now) words.now)) }
{
    let mut targets = TextList::new(alloc);
    let mut ways = WayList::new(alloc);
    for (place, word) in words.iter().enumerate() {
        take_word(alloc, registry, place, word, &mut targets, &mut ways)?;
    }
    Ok((targets, ways))
}

fn check_row(
    alloc: Global,
    registry: &Registry,
    words: &[Text],
    row: &[WordChoice],
) -> Result<(), RequestFault>
    ensures ok { OnOk result (row_fault registry.now words.now row.now ≡ None) }
    ensures cause { IfErr result (IsBy (row_fault registry.now words.now row.now)) }
{
    match row_clash(alloc, registry, row)? {
        None => Ok(()),
        Some(place) => match words.get(place) {
            None => Ok(()),
            Some(word) => Err(RequestFault::Conflict { word: word.copy()? }),
        },
    }
}

fn check_rows(
    alloc: Global,
    registry: &Registry,
    words: &[Text],
    rows: &[Vec<WordChoice>],
) -> Result<(), RequestFault>
    ensures ok { OnOk result (first_of (row_fault registry.now words.now) (map (λ row. row.items) rows.now) ≡ None) }
    ensures cause { IfErr result (IsBy (first_of (row_fault registry.now words.now) (map (λ row. row.items) rows.now))) }
{
    for row in rows {
        check_row(alloc, registry, words, row.as_slice())?;
    }
    Ok(())
}

fn row_set(alloc: Global, registry: &Registry, row: &[WordChoice]) -> Result<Props, OutOfMemory>
    ensures value { IfOk result (λ made. made ≡ row_set registry.now row.now) }
    ensures set { IfOk result (λ made. IsSet registry.now made) }
{
    let mut pairs = Vec::new(alloc);
    for choice in row {
        pairs.push(copy_pair(&choice.pair)?)?;
    }
    set_of(alloc, registry, pairs.as_slice())
}

fn row_sets(
    alloc: Global,
    registry: &Registry,
    rows: &[Vec<WordChoice>],
) -> Result<PropsList, OutOfMemory>
    ensures value { IfOk result (λ made. made ≡ map (row_set registry.now) (map (λ row. row.items) rows.now)) }
    ensures set { IfOk result (λ made. AllByRecursion (IsSet registry.now) made) }
{
    let mut made = PropsList::new(alloc);
    for row in rows {
        made.push(row_set(alloc, registry, row.as_slice())?)?;
    }
    Ok(made)
}

/// Reads the words of a request. A word is cut at its slashes; where each segment is a feature, `=` and values with
/// commas between them, or implicit values with commas between them, it is a property word, else it names a target. Words
/// of one segment with values of one feature that is not free count as one, at the place of the first. The sets are the
/// product of the values, the leftmost varying slowest; without property words there is one empty set. The first property
/// of a word that is none is refused, else the first set in which two values of a feature meet that is not free.
pub fn read_request(
    alloc: Global,
    registry: &Registry,
    words: &[Text],
) -> Result<Request, RequestFault>
    ensures targets { IfOk result (λ request. request.targets ≡ target_words registry.now words.now) }
    ensures sets { IfOk result (λ request. request.sets ≡ request_sets registry.now words.now) }
    ensures whole { IfOk result (λ request. AllByRecursion (IsSet registry.now) request.sets) }
    ensures sound { OnOk result (request_fault registry.now words.now ≡ None) }
    ensures cause { IfErr result (IsBy (request_fault registry.now words.now)) }
{
    let (targets, ways) = read_words(alloc, registry, words)?;
    let rows = product(alloc, ways.factors.as_slice())?;
    check_rows(alloc, registry, words, rows.as_slice())?;
    let sets = row_sets(alloc, registry, rows.as_slice())?;
    Ok(Request { targets, sets })
}
