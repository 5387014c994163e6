//! The text of a module.

ghost use Rattle.std.specs.Prelude.{◌≡◌, ◌++◌, map, OnOk, IfOk, string_bytes};
ghost use Rattle.verilog_out.specs.Assigns.{sum, product, inverse, copy, constant, assign_text, assign_of};
ghost use Rattle.verilog_out.specs.Assigns.{gate_lines, output_lines, spelling_at, IsModule};

use crate::spelling::spelled;
use circuit::wires::inner_names;
use circuit::{Circuit, Port, bits};
use netlist::Gate;
use std::alloc::{AllocError, Global};
use std::fmt::Write;

/// What is written: the name of the module, or the circuit's own, and whether each wire is kept.
#[derive(Clone, Copy, Debug)]
pub struct Options<'a> {
    pub module: Option<&'a str>,
    pub keep: bool,
}

/// How each wire is spelled: an input wire as the bit of its port.
#[derive(Drop)]
struct Spelled {
    wires: Vec<String>,
}

impl Spelled {
    /// The spelling of a wire.
    fn wire(&self, wire: u32) -> &str
        ensures { result.now ≡ spelling_at self.now.wires.items wire }
    {
        let place = wire as usize;
        if place < self.wires.len() {
            self.wires[place].as_str()
        } else {
            ""
        }
    }
}

/// The spelling of a bit of a port.
fn spelled_bit(alloc: Global, port: &Port, bit: u32) -> Result<String, AllocError> {
    let name = spelled(alloc, port.name.as_str())?;
    if port.width == 1 {
        return Ok(name);
    }
    format!(in alloc; "{name}[{bit}]")
}

/// The spellings of all wires.
fn spelled_wires(alloc: Global, circuit: &Circuit) -> Result<Spelled, AllocError> {
    let mut wires = Vec::new(alloc);
    for port in &circuit.inputs {
        for bit in 0..port.width {
            wires.push(spelled_bit(alloc, port, bit)?)?;
        }
    }
    let inner = inner_names(alloc, circuit)?;
    for name in inner.iter().skip(wires.len()) {
        wires.push(spelled(alloc, name.as_str())?)?;
    }
    Ok(Spelled { wires })
}

/// Writes the declarations of ports.
fn write_ports(
    alloc: Global,
    out: &mut String,
    direction: &str,
    ports: &[Port],
) -> Result<(), AllocError> {
    for port in ports {
        let name = spelled(alloc, port.name.as_str())?;
        let top = port.width.saturating_sub(1);
        if port.width == 1 {
            writeln!(out, "  {direction} {name};")?;
        } else {
            writeln!(out, "  {direction} [{top}:0] {name};")?;
        }
    }
    Ok(())
}

/// Writes the first line: the module's name and those of its ports.
fn write_head(
    alloc: Global,
    out: &mut String,
    module: &str,
    circuit: &Circuit,
) -> Result<(), AllocError> {
    let module = spelled(alloc, module)?;
    write!(out, "module {module}(")?;
    for (place, port) in circuit
        .inputs
        .iter()
        .chain(circuit.outputs.iter())
        .enumerate()
    {
        let between = if place == 0 { "" } else { ", " };
        let name = spelled(alloc, port.name.as_str())?;
        write!(out, "{between}{name}")?;
    }
    out.push_str(");\n")
}

/// Writes the assignment of the bit that is one where just one of two is.
fn write_sum(out: &mut String, target: &str, left: &str, right: &str) -> Result<(), AllocError>
    ensures { OnOk result (string_bytes out.new ≡ string_bytes out.old
        ++ assign_text (record { target = target.now; value = sum left.now right.now })) }
{
    writeln!(out, "  assign {target} = {left} ^ {right};")
}

/// Writes the assignment of the bit that is one where both are.
fn write_product(out: &mut String, target: &str, left: &str, right: &str) -> Result<(), AllocError>
    ensures { OnOk result (string_bytes out.new ≡ string_bytes out.old
        ++ assign_text (record { target = target.now; value = product left.now right.now })) }
{
    writeln!(out, "  assign {target} = {left} & {right};")
}

/// Writes the assignment of the bit that another is not.
fn write_inverse(out: &mut String, target: &str, source: &str) -> Result<(), AllocError>
    ensures { OnOk result (string_bytes out.new ≡ string_bytes out.old
        ++ assign_text (record { target = target.now; value = inverse source.now })) }
{
    writeln!(out, "  assign {target} = ~{source};")
}

/// Writes the assignment of the bit that another is.
fn write_copy(out: &mut String, target: &str, source: &str) -> Result<(), AllocError>
    ensures { OnOk result (string_bytes out.new ≡ string_bytes out.old
        ++ assign_text (record { target = target.now; value = copy source.now })) }
{
    writeln!(out, "  assign {target} = {source};")
}

/// Writes the assignment of a constant.
fn write_constant(out: &mut String, target: &str, value: u32) -> Result<(), AllocError>
    ensures { OnOk result (string_bytes out.new ≡ string_bytes out.old
        ++ assign_text (record { target = target.now; value = constant value })) }
{
    if value == 1 {
        writeln!(out, "  assign {target} = 1'b1;")
    } else {
        writeln!(out, "  assign {target} = 1'b0;")
    }
}

/// Writes the assignment of a gate's wire.
fn write_gate(out: &mut String, gate: Gate, spelled: &Spelled) -> Result<(), AllocError>
    ensures { OnOk result (string_bytes out.new ≡ string_bytes out.old
        ++ assign_text (assign_of (spelling_at spelled.now.wires.items) gate)) }
{
    match gate {
        Gate::Xor(left, right, result) => {
            write_sum(
                out,
                spelled.wire(result),
                spelled.wire(left),
                spelled.wire(right),
            )
        }
        Gate::And(left, right, result) => {
            write_product(
                out,
                spelled.wire(result),
                spelled.wire(left),
                spelled.wire(right),
            )
        }
        Gate::Inv(source, result) => write_inverse(out, spelled.wire(result), spelled.wire(source)),
        Gate::Eqw(source, result) => write_copy(out, spelled.wire(result), spelled.wire(source)),
        Gate::Eq(value, result) => write_constant(out, spelled.wire(result), value),
    }
}

/// Writes the assignments of the gates, in their order.
fn write_gates(out: &mut String, gates: &[Gate], spelled: &Spelled) -> Result<(), AllocError>
    ensures { OnOk result (string_bytes out.new ≡ string_bytes out.old
        ++ gate_lines (spelling_at spelled.now.wires.items) gates.now) }
{
    for gate in gates {
        write_gate(out, *gate, spelled)?;
    }
    Ok(())
}

/// Writes the assignments of the output bits of these names, which are the wires from `first` on.
fn write_outputs(
    out: &mut String,
    targets: &[String],
    first: u32,
    spelled: &Spelled,
) -> Result<(), AllocError>
    ensures { OnOk result (string_bytes out.new ≡ string_bytes out.old
        ++ output_lines (spelling_at spelled.now.wires.items) first (map string_bytes targets.now)) }
{
    let [target, more @ ..] = targets else {
        return Ok(());
    };
    write_copy(out, target.as_str(), spelled.wire(first))?;
    let Some(next) = first.checked_add(1) else {
        return Err(AllocError);
    };
    write_outputs(out, more, next, spelled)
}

/// Writes a gate as an instance of the module of its kind.
fn write_instance(
    out: &mut String,
    module: &str,
    gate: Gate,
    spelled: &Spelled,
) -> Result<(), AllocError> {
    let number = circuit::result(gate);
    let result = spelled.wire(number);
    match gate {
        Gate::Xor(left, right, _) => {
            let left = spelled.wire(left);
            let right = spelled.wire(right);
            writeln!(
                out,
                "  {module}_xor gate{number}(.a({left}), .b({right}), .y({result}));"
            )
        }
        Gate::And(left, right, _) => {
            let left = spelled.wire(left);
            let right = spelled.wire(right);
            writeln!(
                out,
                "  {module}_and gate{number}(.a({left}), .b({right}), .y({result}));"
            )
        }
        Gate::Inv(source, _) => {
            let source = spelled.wire(source);
            writeln!(
                out,
                "  {module}_inv gate{number}(.a({source}), .y({result}));"
            )
        }
        _ => write_gate(out, gate, spelled),
    }
}

/// Writes the modules of the three kinds of gates.
fn write_kinds(out: &mut String, module: &str) -> Result<(), AllocError> {
    let keep = "(* keep_hierarchy *)";
    writeln!(
        out,
        "{keep} module {module}_xor(input a, input b, output y); assign y = a ^ b; endmodule"
    )?;
    writeln!(
        out,
        "{keep} module {module}_and(input a, input b, output y); assign y = a & b; endmodule"
    )?;
    writeln!(
        out,
        "{keep} module {module}_inv(input a, output y); assign y = ~a; endmodule"
    )
}

/// The spellings of the bits of the outputs.
fn spelled_outputs(alloc: Global, ports: &[Port]) -> Result<Vec<String>, AllocError> {
    let mut all = Vec::new(alloc);
    for port in ports {
        for bit in 0..port.width {
            all.push(spelled_bit(alloc, port, bit)?)?;
        }
    }
    Ok(all)
}

/// The name of the module.
fn module_name<'a>(circuit: &'a Circuit, options: Options<'a>) -> &'a str {
    let own = circuit.name.as_str();
    match options.module {
        Some(name) => name,
        None if own.is_empty() => "netlist",
        None => own,
    }
}

/// Writes the first line, and the declarations of ports and wires.
fn write_declarations(
    alloc: Global,
    out: &mut String,
    circuit: &Circuit,
    options: Options<'_>,
    spelled: &Spelled,
) -> Result<(), AllocError> {
    write_head(alloc, out, module_name(circuit, options), circuit)?;
    write_ports(alloc, out, "input", &circuit.inputs)?;
    write_ports(alloc, out, "output", &circuit.outputs)?;
    let keep = if options.keep { "(* keep *) " } else { "" };
    for wire in bits(&circuit.inputs)..circuit.wires {
        let name = spelled.wire(wire);
        writeln!(out, "  {keep}wire {name};")?;
    }
    Ok(())
}

/// The circuit as a module: declarations, and then an assignment for each gate and each output bit.
pub fn write(alloc: Global, circuit: &Circuit, options: Options<'_>) -> Result<String, AllocError>
    ensures { IfOk result (λ text. IsModule circuit.now.gates.items (string_bytes text)) }
{
    let spelled = spelled_wires(alloc, circuit)?;
    let outputs = spelled_outputs(alloc, &circuit.outputs)?;
    let first = circuit.wires.saturating_sub(bits(&circuit.outputs));
    let mut out = String::new(alloc);
    write_declarations(alloc, &mut out, circuit, options, &spelled)?;
    write_gates(&mut out, &circuit.gates, &spelled)?;
    write_outputs(&mut out, &outputs, first, &spelled)?;
    out.push_str("endmodule\n")?;
    Ok(out)
}

/// The circuit with a module for each gate under `(* keep_hierarchy *)`, which keeps more tools from taking gates
/// apart.
pub fn write_cells(
    alloc: Global,
    circuit: &Circuit,
    options: Options<'_>,
) -> Result<String, AllocError> {
    let spelled = spelled_wires(alloc, circuit)?;
    let outputs = spelled_outputs(alloc, &circuit.outputs)?;
    let first = circuit.wires.saturating_sub(bits(&circuit.outputs));
    let module = module_name(circuit, options);
    let mut out = String::new(alloc);
    write_kinds(&mut out, module)?;
    write_declarations(alloc, &mut out, circuit, options, &spelled)?;
    for gate in &circuit.gates {
        write_instance(&mut out, module, *gate, &spelled)?;
    }
    write_outputs(&mut out, &outputs, first, &spelled)?;
    out.push_str("endmodule\n")?;
    Ok(out)
}
