//! The names that stand after some steps.

ghost use Rattle.std.specs.Prelude.{◌≡◌, eqb, IfOk, OnOk, OnErr, string_cmp};
ghost use Rattle.std.specs.List.{starts_with};
ghost use Rattle.std.specs.FinMap.{empty};
ghost use Rattle.std.specs.BTreeSet.{IsOrdered};
ghost use Rattle.disk_trait.specs.Replay.{played};
ghost use Rattle.disk_trait.specs.Named.{Names, NamesFollow, keys_under};
ghost use Rattle.disk_trait.specs.Calls.{AreNamesUnder};

use crate::step_log::{LoggedStep, Step};
use std::alloc::{AllocError, Global};
use std::collections::BTreeSet;

fn update(alloc: Global, names: &mut BTreeSet<String>, step: &Step) -> Result<(), AllocError>
    ensures { OnOk result (NamesFollow names.old names.new step.now) }
{
    match step {
        Step::Put { name, .. } => {
            names.insert(String::from_str(alloc, name.as_str())?)?;
            Ok(())
        }
        Step::Rename { from, to } => {
            let there = names.remove(from.as_str());
            if there {
                names.insert(String::from_str(alloc, to.as_str())?)?;
                return Ok(());
            }
            names.remove(to.as_str());
            Ok(())
        }
        Step::Remove { name } => {
            names.remove(name.as_str());
            Ok(())
        }
        Step::Sync => Ok(()),
    }
}

fn names_of(alloc: Global, log: &[LoggedStep]) -> Result<BTreeSet<String>, AllocError>
    ensures { IfOk result (λ names. Names names (played empty log.now)) }
{
    let mut names = BTreeSet::new(alloc);
    for logged in log {
        update(alloc, &mut names, &logged.step)?;
    }
    Ok(names)
}

fn begins(name: &str, prefix: &str) -> bool
    ensures { result ≡ starts_with eqb name.now prefix.now }
{
    name.starts_with(prefix)
}

fn beginning(
    alloc: Global,
    names: BTreeSet<String>,
    prefix: &str,
) -> Result<Vec<String>, AllocError>
    ensures ordered { IsOrdered string_cmp names }
    ensures found { IfOk result (λ found. found.items ≡ keys_under names prefix.now) }
{
    names
        .into_iter()
        .filter(|name| begins(name.as_str(), prefix))
        .collect(alloc)
}

pub fn list_names(
    alloc: Global,
    log: &[LoggedStep],
    prefix: &str,
) -> Result<Vec<String>, AllocError>
    ensures { IfOk result (AreNamesUnder (played empty log.now) prefix.now) }
{
    let names = names_of(alloc, log)?;
    let found = beginning(alloc, names, prefix)?;
    Ok(found)
}
