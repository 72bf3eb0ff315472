// All statements laid out in memory, or all that is wrong with them.
ghost use Rattle.std.specs.Prelude.{◌≡◌, ◌≤◌, ◌++◌, length, IfOk, IfErr, OnOk};
ghost use Rattle.std.specs.Result.{result_err};
ghost use Rattle.layout.specs.Layout.{fault_at, faults_from, laid, laid_from, size_of, values_from, values_of};
ghost use Rattle.layout.specs.Laws.{Because, Laid_out};

use crate::fault::{Fault, LayoutError, Located};
use crate::piece::write;
use crate::place::next;
use crate::statement::Statement;
use crate::value::name;
use std::alloc::{AllocError, Global};

// Each label's value is where it stands.
fn name_all(values: &mut [u32], statements: &[Statement], size: u32)
    ensures { values.new ≡ values_from size 0 statements.now values.old }
{
    let mut here = 0;
    for statement in statements {
        name(values, here, *statement);
        here = next(size, here, *statement);
    }
}

// The labels' values.
fn find_values(
    heap: Global,
    statements: &[Statement],
    symbols: usize,
    size: u32,
) -> Result<Vec<u32>, AllocError>
    ensures { IfOk result (λ v. v.items ≡ values_of size symbols statements.now) }
{
    let mut values = vec![in heap; 0u32; symbols]?;
    name_all(values.as_mut_slice(), statements, size);
    Ok(values)
}

// One fault more, if there is one.
fn note(faults: &mut Vec<Located>, index: usize, fault: Option<Fault>) -> Result<(), AllocError>
    ensures { OnOk result (faults.new.items ≡ faults.old.items ++ fault_at index fault) }
{
    if let Some(fault) = fault {
        faults.push(Located { index, fault })?;
    }
    Ok(())
}

// Writes all statements, and gives all that is wrong with them.
fn write_all(
    heap: Global,
    memory: &mut [u8],
    statements: &[Statement],
    values: &[u32],
    size: u32,
) -> Result<Vec<Located>, AllocError>
    requires { length memory.old ≡ size }
    ensures faults { IfOk result (λ v. v.items ≡ faults_from size values.now 0 0 statements.now) }
    ensures after { IfOk result (λ v. memory.new ≡ laid_from size values.now 0 statements.now memory.old) }
{
    let mut faults = Vec::new(heap);
    let mut here = 0;
    for (index, statement) in statements.iter().enumerate() {
        let fault = write(memory, size, values, here, *statement).err();
        note(&mut faults, index, fault)?;
        here = next(size, here, *statement);
    }
    Ok(faults)
}

// A memory of so many lines, with all statements in it; or all that is wrong with them. Symbols go by number, below `symbols`.
pub fn lay_out(
    heap: Global,
    statements: &[Statement],
    symbols: usize,
    lines: u32,
) -> Result<Vec<u8>, LayoutError>
    ensures size { IfOk result (λ v. (1 ≤ lines) × (lines ≤ 65536)) }
    ensures value { IfOk result (λ v. v.items ≡ laid (size_of lines) symbols statements.now) }
    ensures meets { IfOk result (λ v. Laid_out (size_of lines) symbols statements.now v.items) }
    ensures why { IfErr result (λ e. Because lines symbols statements.now e) }
{
    if !(1..=65536).contains(&lines) {
        return Err(LayoutError::NoSuchSize);
    }
    let size = 32 * lines;
    let values = find_values(heap, statements, symbols, size)?;
    let mut memory = vec![in heap; 0u8; size as usize]?;
    let faults = write_all(
        heap,
        memory.as_mut_slice(),
        statements,
        values.as_slice(),
        size,
    )?;
    if faults.is_empty() {
        Ok(memory)
    } else {
        Err(LayoutError::Faults(faults))
    }
}
