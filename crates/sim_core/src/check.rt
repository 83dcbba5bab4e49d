//! The word `check`: the canonical configuration of an input.

ghost use Rattle.std.specs.Prelude.{◌≡◌, ◌++◌, ◌≤◌, IfOk, OnOk};
ghost use Rattle.cluster_types.specs.Valid.{KeepsLimits};
ghost use Rattle.sim_core.specs.Check.{IsCheckText, check_text, counts_line, rules_in};

use crate::text_word::TextWord;
use cluster_types::Cluster;
use crm_print::print;
use faults::NoMemory;
use input_reading::Input;
use std::alloc::Global;
use trace_text::push_number;

/// How many rules a cluster has.
fn rules_in(cluster: &Cluster) -> usize
    requires { KeepsLimits cluster.now }
    ensures rules { result ≡ rules_in cluster.now }
    ensures few { result ≤ 2000 }
{
    let placed = cluster.locations.len() + cluster.rule_locations.len();
    placed + cluster.colocations.len() + cluster.orders.len()
}

fn push_counts(text: &mut Vec<u8>, cluster: &Cluster) -> Result<(), NoMemory>
    requires { KeepsLimits cluster.now }
    ensures { OnOk result (text.new.items ≡ text.old.items ++ counts_line cluster.now) }
{
    text.extend_from_slice(b"# nodes ")?;
    push_number(text, cluster.nodes.len() as u32)?;
    text.extend_from_slice(b" leaves ")?;
    push_number(text, cluster.leaves.len() as u32)?;
    text.extend_from_slice(b" rules ")?;
    push_number(text, rules_in(cluster) as u32)?;
    text.extend_from_slice(b"\n")?;
    Ok(())
}

fn check_text(alloc: Global, input: &Input) -> Result<Vec<u8>, NoMemory>
    requires { KeepsLimits input.now.head.cluster }
    ensures { IfOk result (λ text. text.items ≡ check_text input.now) }
{
    let mut text = print(alloc, &input.head.crm)?;
    push_counts(&mut text, &input.head.cluster)?;
    Ok(text)
}

/// The word `check`.
#[derive(Drop)]
pub(crate) struct CheckWord;

impl TextWord for CheckWord {
    ghost says = { λ _. IsCheckText };

    fn text(&self, alloc: Global, input: Input) -> Result<Vec<u8>, NoMemory> {
        check_text(alloc, &input)
    }
}
