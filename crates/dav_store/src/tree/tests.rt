//! Calls of a tree as rows. The expected answers were worked out by hand from what each call promises.
//!
//! A line `# title` begins a new tree, of a root alone. Each other line is a call and, after ` -> `, its answer: a
//! number, `ok`, a refusal, or the keys and numbers of children in the order of the keys. A call that ends in
//! `over` overwrites.
use super::*;
use crate::asserting::same;
use std::test::Fail;

const ROWS: &str = r##"
# children are numbered, replaced, moved and deleted
add 1 a -> 2
add 2 b -> 3
add 1 a -> Exists
delete 2 -> Exists
move 2 3 x -> Forbidden
move 3 1 c -> ok
children 1 -> a2 c3
get 1 c -> 3
get 2 b -> NotFound
delete 2 -> ok
children 1 -> c3
add 1 a -> 4
# what isn't there
get 1 a -> NotFound
get 2 a -> NotFound
children 2 -> NotFound
add 2 a -> NotFound
delete 2 -> NotFound
move 2 1 a -> NotFound
add 1 a -> 2
move 2 3 a -> NotFound
# the root stays
add 1 a -> 2
delete 1 -> Forbidden
move 1 2 b -> Forbidden
children 1 -> a2
# overwriting takes a child without children
add 1 a -> 2
add 1 a over -> 3
children 1 -> a3
delete 2 -> NotFound
add 3 b -> 4
add 1 a over -> Exists
add 1 c -> 5
move 5 1 a -> Exists
move 5 1 a over -> Exists
move 5 3 b -> Exists
move 5 3 b over -> ok
children 3 -> b5
children 1 -> a3
# a move within one folder, onto its own key, and below itself
add 1 a -> 2
add 1 b -> 3
add 3 c -> 4
move 2 1 a -> ok
move 2 1 d -> ok
children 1 -> b3 d2
move 3 3 x -> Forbidden
move 3 4 x -> Forbidden
move 4 1 d over -> ok
children 1 -> b3 d4
move 4 1 d -> ok
# a chain goes from its top, and no number comes again
add 1 a -> 2
add 2 b -> 3
add 3 c -> 4
add 4 d -> 5
subtree 3 -> ok
children 2 ->
children 3 -> NotFound
get 3 c -> NotFound
children 5 -> NotFound
subtree 3 -> NotFound
delete 5 -> NotFound
add 4 e -> NotFound
add 2 b -> 6
children 2 -> b6
subtree 2 -> ok
children 1 ->
add 1 a -> 7
# a wide node goes with all below it, and nothing else does
add 1 a -> 2
add 1 b -> 3
add 1 c -> 4
add 3 d -> 5
add 3 e -> 6
add 3 f -> 7
add 6 g -> 8
add 2 h -> 9
move 9 6 i -> ok
move 4 9 j -> ok
move 7 2 k -> ok
subtree 3 -> ok
children 1 -> a2
children 2 -> k7
children 4 -> NotFound
children 9 -> NotFound
subtree 7 -> ok
children 2 ->
add 1 b -> 10
# the root and what isn't there
subtree 1 -> Forbidden
subtree 2 -> NotFound
add 1 a -> 2
subtree 1 -> Forbidden
subtree 3 -> NotFound
subtree 0 -> NotFound
children 1 -> a2
"##;

// A row: the name of a call, two numbers or a number and a key, and what is left.
type Row<'a> = [&'a str; 5];

fn row(line: &str) -> Row<'_> {
    let (call, rest) = line.split_once(' ').unwrap_or((line, ""));
    let (first, rest) = rest.split_once(' ').unwrap_or((rest, ""));
    let (second, rest) = rest.split_once(' ').unwrap_or((rest, ""));
    let (third, fourth) = rest.split_once(' ').unwrap_or((rest, ""));
    [call, first, second, third, fourth]
}

fn number(text: &str) -> u64 {
    text.parse::<u64>().unwrap_or(0)
}

fn key(alloc: Global, text: &str) -> Result<Vec<u8>, NoMemory> {
    let mut bytes = Vec::new(alloc);
    bytes.extend_from_slice(text.as_bytes())?;
    Ok(bytes)
}

type Names = Tree<Vec<u8>, u64>;

fn number_text(alloc: Global, answer: FsResult<u64>) -> Result<String, Fail> {
    Ok(match answer {
        Ok(id) => format!(in alloc; "{id}")?,
        Err(e) => format!(in alloc; "{e:?}")?,
    })
}

fn outcome(alloc: Global, answer: FsResult<()>) -> Result<String, Fail> {
    Ok(match answer {
        Ok(()) => String::from_str(alloc, "ok")?,
        Err(e) => format!(in alloc; "{e:?}")?,
    })
}

fn children(alloc: Global, tree: &Names, id: u64) -> Result<String, Fail> {
    let found = match tree.get_children(alloc, id) {
        Ok(found) => found,
        Err(e) => return Ok(format!(in alloc; "{e:?}")?),
    };
    let mut pairs = Vec::new(alloc);
    for pair in found {
        pairs.push(pair)?;
    }
    pairs.sort()?;
    let mut text = String::new(alloc);
    for (name, id) in &pairs {
        if !text.is_empty() {
            text.push(' ')?;
        }
        let name = std::str::from_utf8(name).unwrap_or("?");
        text.push_str(&format!(in alloc; "{name}{id}")?)?;
    }
    Ok(text)
}

// Makes the call of a row, and returns its answer as text. Each node's value is a hundred times its parent's number.
fn play(alloc: Global, tree: &mut Names, row: Row<'_>) -> Result<String, Fail> {
    let [call, first, second, third, fourth] = row;
    let id = number(first);
    match call {
        "add" => {
            let name = key(alloc, second)?;
            number_text(
                alloc,
                tree.add_child(alloc, id, name, id.wrapping_mul(100), third == "over"),
            )
        }
        "get" => number_text(alloc, tree.get_child_bytes(id, second.as_bytes())),
        "delete" => outcome(alloc, tree.delete_node(id)),
        "subtree" => outcome(alloc, tree.delete_subtree(id)),
        "move" => {
            let name = key(alloc, third)?;
            outcome(
                alloc,
                tree.move_node(id, number(second), name, fourth == "over"),
            )
        }
        _ => children(alloc, tree, id),
    }
}

#[test]
fn plays_rows(rt: HostRuntime) -> Result<(), Fail> {
    let alloc = rt.alloc();
    let mut tree: Names = Tree::new(alloc, 0)?;
    for line in ROWS.lines().skip(1) {
        if line.starts_with('#') {
            tree = Tree::new(alloc, 0)?;
            continue;
        }
        let (asked, wanted) = line.split_once(" ->").unwrap_or((line, " no answer"));
        let found = play(alloc, &mut tree, row(asked))?;
        assert!(rt; found.as_str() == wanted.trim(), "{line}: {found}");
    }
    Ok(())
}

#[test]
fn values_are_those_given(rt: HostRuntime) -> Result<(), Fail> {
    let alloc = rt.alloc();
    let mut tree: Names = Tree::new(alloc, 7)?;
    let added = tree.add_child(alloc, ROOT_ID, key(alloc, "a")?, 8, false);
    same(&rt, &added, &Ok(2));
    same(&rt, &tree.get_child(ROOT_ID, &key(alloc, "a")?), &Ok(2));
    same(&rt, &tree.get_node(ROOT_ID).copied(), &Ok(7));
    same(&rt, &tree.get_node(2).copied(), &Ok(8));
    same(&rt, &tree.get_node(3).copied(), &Err(FsError::NotFound));
    let again = tree.clone()?;
    if let Ok(value) = tree.get_node_mut(2) {
        *value = 9;
    }
    same(&rt, &tree.get_node(2).copied(), &Ok(9));
    same(&rt, &tree.get_node(ROOT_ID).copied(), &Ok(7));
    assert!(rt; tree.get_node_mut(3).is_err());
    same(&rt, &again.get_node(2).copied(), &Ok(8));
    same(&rt, &again.get_child_bytes(ROOT_ID, b"a"), &Ok(2));
    Ok(())
}

#[test]
fn deep_subtrees_go(rt: HostRuntime) -> Result<(), Fail> {
    let alloc = rt.alloc();
    let mut tree: Names = Tree::new(alloc, 0)?;
    let mut at = ROOT_ID;
    for _ in 0..500 {
        let added = tree.add_child(alloc, at, key(alloc, "a")?, at, false);
        at = added.unwrap_or(0);
    }
    same(&rt, &at, &501);
    same(&rt, &tree.delete_subtree(3), &Ok(()));
    same(&rt, &tree.get_node(2).copied(), &Ok(1));
    same(&rt, &tree.get_node(3).copied(), &Err(FsError::NotFound));
    same(&rt, &tree.get_node(501).copied(), &Err(FsError::NotFound));
    let added = tree.add_child(alloc, 2, key(alloc, "a")?, 5, false);
    same(&rt, &added, &Ok(502));
    Ok(())
}
