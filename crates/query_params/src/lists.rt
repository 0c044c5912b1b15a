//! Values that are lists of names, with commas between them.
ghost use Rattle.std.specs.Prelude.{◌≡◌, ◌∷◌, map, length};
ghost use Rattle.std.specs.List.{list_all};
ghost use Rattle.std.specs.Option.{option_copied};
ghost use Rattle.explorer_model.specs.Players.{mode_names};
ghost use Rattle.explorer_model.specs.Query.{pieces_of, is_among, names_given, speed_names, group_names};
ghost use Rattle.query_params.specs.Given.{pieces_left};

/// The first piece, and what stands behind its comma, if there is one.
pub fn split_piece(text: &str) -> (&str, Option<&str>)
    ensures { pieces_of text.now ≡ result.0.now ∷ pieces_left (option_copied result.1) }
{
    match text.split_once(',') {
        None => (text, None),
        Some((piece, rest)) => (piece, Some(rest)),
    }
}

fn is_among(names: &[&str], text: &str) -> bool
    ensures { result ≡ is_among (map (λ name. name.now) names.now) text.now }
{
    for name in names {
        if *name == text {
            return true;
        }
    }
    false
}

/// Is each piece one of the names?
fn are_among(names: &[&str], text: &str) -> bool
    ensures { result ≡ list_all (is_among (map (λ name. name.now) names.now)) (pieces_of text.now) }
{
    let mut rest = Some(text);
    while let Some(text) = rest {
        let (piece, more) = split_piece(text);
        if !is_among(names, piece) {
            return false;
        }
        rest = more;
    }
    true
}

/// Is the name one of the pieces?
fn is_piece(text: &str, name: &str) -> bool
    ensures { result ≡ is_among (pieces_of text.now) name.now }
{
    let mut rest = Some(text);
    while let Some(text) = rest {
        let (piece, more) = split_piece(text);
        if piece == name {
            return true;
        }
        rest = more;
    }
    false
}

/// Marks the names that are pieces.
fn mark_given(names: &[&str], text: &str, given: &mut [bool])
    requires { length given.old ≡ length names.now }
    ensures { given.new ≡ map (is_among (pieces_of text.now)) (map (λ name. name.now) names.now) }
{
    for (place, name) in names.iter().enumerate() {
        given[place] = is_piece(text, name);
    }
}

/// The speeds that a list names; None where it names another.
#[tactic(auto, using(crate::proofs::Names::names_refused, crate::proofs::Names::names_listed))]
pub fn speeds_named(text: &str) -> Option<[bool; 6]>
    ensures { result ≡ names_given speed_names text.now }
{
    let names = [
        "ultraBullet",
        "bullet",
        "blitz",
        "rapid",
        "classical",
        "correspondence",
    ];
    if !are_among(&names, text) {
        return None;
    }
    let mut given = [false; 6];
    mark_given(&names, text, &mut given);
    Some(given)
}

/// The groups of ratings that a list names; None where it names another.
#[tactic(auto, using(crate::proofs::Names::names_refused, crate::proofs::Names::names_listed))]
pub fn groups_named(text: &str) -> Option<[bool; 9]>
    ensures { result ≡ names_given group_names text.now }
{
    let names = [
        "0", "1000", "1200", "1400", "1600", "1800", "2000", "2200", "2500",
    ];
    if !are_among(&names, text) {
        return None;
    }
    let mut given = [false; 9];
    mark_given(&names, text, &mut given);
    Some(given)
}

/// The modes that a list names; None where it names another.
#[tactic(auto, using(crate::proofs::Names::names_refused, crate::proofs::Names::names_listed))]
pub fn modes_named(text: &str) -> Option<[bool; 2]>
    ensures { result ≡ names_given mode_names text.now }
{
    let names = ["rated", "casual"];
    if !are_among(&names, text) {
        return None;
    }
    let mut given = [false; 2];
    mark_given(&names, text, &mut given);
    Some(given)
}
