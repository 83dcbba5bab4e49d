//! Clusters, statements and names of a text, for the tests that begin with them.

ghost use Rattle.std.specs.Prelude.{◌≤◌, length};
ghost use Rattle.cluster_types.specs.Valid.{IsValid};
ghost use Rattle.input_reading.specs.Inner.Reading.{AreStated};

use cluster_model::{expand, resolve};
use cluster_types::Cluster;
use crm_lex::{Line, Name};
use crm_parse::{Crm, parse};
use listed::Listed;
use std::alloc::Global;
use std::process::Abort;
use std::str;

/// The words of a line, which are parted by single spaces.
fn words(rt: &impl Abort, alloc: Global, line: &str) -> Listed<Name> {
    let mut words = Listed::new(alloc);
    for word in line.split(' ') {
        words.push(name(rt, alloc, word)).expect(rt, "memory");
    }
    words
}

/// The statements of a text, whose words are parted by single spaces. A `|` ends a line.
pub fn crm(rt: &impl Abort, alloc: Global, text: &str) -> Crm
    ensures stated { AreStated result }
    ensures few { length result.statements ≤ 1000000000 }
{
    let mut lines = Vec::new(alloc);
    let mut number = 0u32;
    for line in text.split('|') {
        number = number.saturating_add(1);
        lines
            .push(Line {
                line: number,
                words: words(rt, alloc, line),
            })
            .expect(rt, "memory");
    }
    let crm = parse(alloc, lines.as_slice()).expect(rt, "the statements are read");
    assert!(rt;
        crm.statements.len() <= 1_000_000_000,
        "there are few statements"
    );
    crm
}

/// The cluster of a text, whose words and lines are parted so.
pub fn cluster(rt: &impl Abort, alloc: Global, text: &str) -> Cluster
    ensures { IsValid result }
{
    let crm = crm(rt, alloc, text);
    let leaves = expand(alloc, &crm).expect(rt, "the leaves are made");
    resolve(alloc, &crm, &leaves).expect(rt, "the names are resolved")
}

/// A name of this text.
pub fn name(rt: &impl Abort, alloc: Global, text: &str) -> Name {
    Name::from_bytes(alloc, text.as_bytes()).expect(rt, "memory")
}

/// The text of a name.
pub fn shown(name: &Name) -> &str {
    str::from_utf8(name.bytes()).unwrap_or("?")
}
