//! Lines below a project or a main target.
use b2_base::text::Text;
use b2_props::requirement::Requirement;
use transcript::answer::Answer;

/// Adds a line of a name and words, where there are some.
pub fn push_list(answer: &mut Answer, name: &str, words: &[Text]) {
    if words.is_empty() {
        return;
    }
    answer.put(name);
    answer.put_words(words);
    answer.end_line();
}

/// Adds a line of a name and pairs, where there are some.
pub fn push_pair_list(answer: &mut Answer, name: &str, pairs: &[(Text, Text)]) {
    if pairs.is_empty() {
        return;
    }
    answer.put(name);
    answer.put_properties(pairs);
    answer.end_line();
}

/// Puts a property as `<feature>value`, with no space before it.
fn put_alone(answer: &mut Answer, property: &(Text, Text)) {
    answer.put("<");
    answer.put(property.0.as_str());
    answer.put(">");
    answer.put(property.1.as_str());
}

/// Puts conditions, each before a comma, the last one before a colon.
fn put_conditions(answer: &mut Answer, conditions: &[(Text, Text)]) {
    if let Some((last, others)) = conditions.split_last() {
        for condition in others {
            put_alone(answer, condition);
            answer.put(",");
        }
        put_alone(answer, last);
        answer.put(":");
    }
}

fn put_requirement(answer: &mut Answer, requirement: &Requirement) {
    answer.put(" ");
    match requirement {
        Requirement::Plain {
            conditions,
            property,
        } => {
            put_conditions(answer, conditions.as_slice());
            put_alone(answer, property);
        }
        Requirement::Indirect { rule } => {
            answer.put("@");
            answer.put_number(*rule as u64);
        }
    }
}

/// Adds a line of a name and requirements, where there are some.
pub fn push_requirements(answer: &mut Answer, name: &str, requirements: &[Requirement]) {
    if requirements.is_empty() {
        return;
    }
    answer.put(name);
    for requirement in requirements {
        put_requirement(answer, requirement);
    }
    answer.end_line();
}
