//! Imports into stores, and the labels of their batches.
use super::stores::file_of;
use super::{ends, game_by_id, games, two_moves};
use disk_model::MemDisk;
use host::{MemFile, MemHost};
use std::alloc::{AllocError, Global};
use std::test::Fail;

/// A host with the empty disks `s` and `t`, and files of 513, two, and three times one game.
fn host_with_files(alloc: Global) -> Result<MemHost, AllocError> {
    let mut host = MemHost::new(alloc);
    host.add_disk("s", MemDisk::new(alloc, 1 << 20, Vec::new(alloc))?)?;
    host.add_disk("t", MemDisk::new(alloc, 1 << 20, Vec::new(alloc))?)?;
    let many = games(alloc, 513)?;
    host.add_file("many", file_of(alloc, many.as_str())?)?;
    let (two, _answer) = two_moves(alloc)?;
    host.add_file("two", file_of(alloc, two.as_str())?)?;
    host.add_file("x", file_of_one(alloc, "bbbbbbb1")?)?;
    host.add_file("y", file_of_one(alloc, "bbbbbbb2")?)?;
    host.add_file("z", file_of_one(alloc, "bbbbbbb3")?)?;
    Ok(host)
}

/// A file of one game with this id.
fn file_of_one(alloc: Global, id: &str) -> Result<MemFile, AllocError> {
    let one = game_by_id(alloc, id, "1-0", "1-0")?;
    file_of(alloc, one.as_str())
}

/// A text of 64 bytes, of letters that have two each.
fn longest_label(alloc: Global) -> Result<String, AllocError> {
    let mut text = String::new(alloc);
    for _ in 0..32 {
        text.push_str("\u{fc}")?;
    }
    Ok(text)
}

/// A run, what it prints and what it reports.
type Row<'a> = (&'a [&'a str], &'a str, &'a str);

#[test]
fn imports_a_file_once_under_its_label(rt: HostRuntime) -> Result<(), Fail> {
    let longest = longest_label(rt.alloc())?;
    let label = longest.as_str();
    let all = format!(in rt.alloc(); "1 512 a\n2 1 a\n3 2 b\n4 1 \n5 1 \n6 1 {label}\n")?;
    let table: [Row; 12] = [
        (&["create", "t"], "created\n", ""),
        (
            &["import", "--label", "jan", "t", "x"],
            "stored 1\nbatches 1\njournal 1\n",
            "",
        ),
        (&["batches", "t"], "1 1 jan\n", ""),
        (&["create", "s"], "created\n", ""),
        (
            &["import", "s", "many", "--label", "a"],
            "stored 513\nbatches 2\njournal 2\n",
            "",
        ),
        (
            &["import", "s", "two", "--label", "b", "--workers", "2"],
            "stored 2\nbatches 1\njournal 3\n",
            "",
        ),
        (
            &["import", "s", "two", "--label", "c"],
            "stored 0\nbatches 0\njournal 3\n",
            "0 Repeated 513\n200 Repeated 514\n",
        ),
        (&["batches", "s"], "1 512 a\n2 1 a\n3 2 b\n", ""),
        (
            &["import", "s", "x"],
            "stored 1\nbatches 1\njournal 4\n",
            "",
        ),
        (
            &["import", "s", "y", "--label", ""],
            "stored 1\nbatches 1\njournal 5\n",
            "",
        ),
        (
            &["import", "s", "z", "--label", label],
            "stored 1\nbatches 1\njournal 6\n",
            "",
        ),
        (&["batches", "s"], all.as_str(), ""),
    ];
    let mut host = host_with_files(rt.alloc())?;
    for (words, printed, reported) in table {
        assert!(rt;
            ends(&rt, &mut host, words, (0, printed, reported))?,
            "{words:?}"
        );
    }
    Ok(())
}

/// The host has nothing, so that a run which asks for the store ends by that.
#[test]
fn text_that_is_no_label_is_refused_before_the_store(rt: HostRuntime) -> Result<(), Fail> {
    let mut long = longest_label(rt.alloc())?;
    long.push_str("x")?;
    let mut host = MemHost::new(rt.alloc());
    for label in [long.as_str(), "a\tb", "a\n", "\u{7f}"] {
        let words = ["import", "--label", label, "lost", "f"];
        let ending = (3, "", "bad parameter label\n");
        assert!(rt; ends(&rt, &mut host, &words, ending)?, "{label:?}");
        assert!(rt; host.calls().is_empty());
    }
    let words = ["import", "--label", "a", "lost", "f"];
    assert!(rt; ends(&rt, &mut host, &words, (10, "", "cannot open lost\n"))?);
    assert_eq!(rt; host.calls().len(), 1);
    Ok(())
}
