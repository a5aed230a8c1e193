//! The ports of a check: the order's, and of each session its input and its kept replies.

ghost use Rattle.std.specs.Prelude.{◌≡◌, ◌%◌, ◌≤◌, ◌<◌, [], ◌∷◌, ◌++◌, length, OnOk};
ghost use Rattle.replay.specs.Comparison.{Takes};
ghost use Rattle.replay.specs.Reading.{IsAll};
ghost use Rattle.run_check.specs.Ports.{Keeps, ReadsAt};
ghost use Rattle.run_check.specs.Sessions.{TellsInputs, TellsOuts};

use crate::fault::CheckFault;
use port_traits::Source;
use replay::{Comparison, Unequal, Unread, read_out};
use std::alloc::{AllocError, Global};
use store_history::Port;
use store_types::Bytes;

/// All that the port at this place has.
pub fn read_at<S: Source, K>(
    alloc: Global,
    ports: &mut [Port<S, K>],
    place: usize,
) -> Result<Vec<u8>, Unread>
    requires { place < length ports.old }
    ensures { ReadsAt S.Source place ports.old ports.new IsAll result }
{
    read_out(alloc, &mut ports[place].source)
}

/// The next session's replies are compared with those that the port at this place has.
fn compare_at<S: Source, K>(
    comparison: &mut Comparison,
    ports: &mut [Port<S, K>],
    place: usize,
) -> Result<(), Unread>
    requires place { place < length ports.old }
    requires lane { comparison.old.lane < 64 }
    ensures { ReadsAt S.Source place ports.old ports.new
        (λ kept told. Takes comparison.old comparison.new kept) result }
{
    comparison.take_out(&mut ports[place].source)
}

fn push_input(inputs: &mut Vec<Bytes>, input: Vec<u8>) -> Result<(), AllocError>
    ensures { OnOk result (inputs.new.items ≡ inputs.old.items ++ input.items ∷ []) }
{
    inputs.push(Bytes::from_vec(input))?;
    Ok(())
}

/// The sessions' inputs.
pub fn read_inputs<S: Source, K>(
    alloc: Global,
    ports: &mut [Port<S, K>],
) -> Result<Vec<Bytes>, CheckFault>
    requires { length ports.old % 2 ≡ 1 }
    ensures keeps { Keeps S.Source ports.old ports.new }
    ensures inputs { TellsInputs S.Source ports.old ports.new result }
{
    let mut inputs = Vec::new(alloc);
    for session in 0..ports.len() / 2 {
        let input = read_at(alloc, ports, 1 + 2 * session)?;
        push_input(&mut inputs, input)?;
    }
    Ok(inputs)
}

/// The first byte at which the sessions' replies and those that were kept of them differ.
pub fn compare_outs<S: Source, K>(
    mut comparison: Comparison,
    ports: &mut [Port<S, K>],
) -> Result<Option<Unequal>, CheckFault>
    requires odd { length ports.old % 2 ≡ 1 }
    requires few { length ports.old ≤ 129 }
    requires begins { comparison.lane ≡ 0 }
    ensures keeps { Keeps S.Source ports.old ports.new }
    ensures outs { TellsOuts S.Source comparison ports.old ports.new result }
{
    for session in 0..ports.len() / 2 {
        compare_at(&mut comparison, ports, 2 + 2 * session)?;
    }
    Ok(comparison.end())
}
