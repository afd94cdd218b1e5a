//! Checks the bytes of an object, rule by rule in order.
ghost use Rattle.std.specs.Prelude.{◌≡◌, ◌≤◌, ◌*◌, None, [], length, IfOk, OnOk};
ghost use Rattle.ft_format.specs.Layout.{rows, cell_layout, code_layout, pair_layout};
ghost use Rattle.ft_format.specs.Places.{IsWhole};
ghost use Rattle.ft_format.specs.Values.{past_of};
ghost use Rattle.ft_format.specs.Versions.{version_of};
ghost use Rattle.ft_format.specs.Broken.{cells_broken, nodes_broken, code_types_broken, blocks_broken, instrs_broken, rows_taken, substs_broken, names_broken, nodes_at, blocks_at, instrs_at, substs_at, names_at, total, cells_part, nodes_part, blocks_part, substs_part, instr_rows_of, cells_read, nodes_read, tables_broken, header_at, front_broken, broken};
ghost use Rattle.ft_view.specs.Found.{Finds};
ghost use Rattle.ft_view.specs.Ends.{AreEnds};

use crate::code_type::check_types;
use crate::header::check_header;
use crate::node_records::NodeRecords;
use crate::part::part;
use crate::rules::check;
use crate::sections::blocks::check_blocks;
use crate::sections::cells::check_cells;
use crate::sections::instrs::check_instrs;
use crate::sections::names::check_names;
use crate::sections::nodes::check_nodes;
use crate::sections::queue::check_queue;
use crate::sections::regs::check_regs;
use crate::sections::substs::check_substs;
use ft_format::{Header, ObjectError, Places};

/// The maximum size of an object file in bytes.
const LIMIT: usize = 67108864;

/// Checks the cells. If no rule is broken, their names end within the name bytes.
fn judge_cells(header: Header, bytes: &[u8]) -> Result<(), ObjectError>
    requires { IsWhole header bytes.now }
    ensures judged { Finds result (cells_broken header 0 48 (rows cell_layout header.cells (cells_part bytes.now))) }
    ensures ends { OnOk result (AreEnds past_of header.names 0 (rows cell_layout header.cells (cells_part bytes.now))) }
{
    check_cells(header, part(bytes, 48))
}

/// Checks the nodes.
fn judge_nodes(header: Header, bytes: &[u8]) -> Result<(), ObjectError>
    requires { IsWhole header bytes.now }
    ensures { Finds result (nodes_broken (version_of header) [] (nodes_at header) (rows code_layout header.nodes (nodes_part header bytes.now))) }
{
    let at = Places::of(header).nodes;
    check_nodes(header.version(), header.nodes, at, part(bytes, at))
}

/// The nodes, kept as their records.
fn nodes_of(header: Header, bytes: &[u8]) -> NodeRecords
    requires { IsWhole header bytes.now }
    ensures { result ≡ nodes_read header bytes.now }
{
    let at = Places::of(header).nodes;
    NodeRecords::new(header.nodes, part(bytes, at))
}

/// Checks the types with their rows.
#[tactic(auto, unfolding(ft_format::specs::Broken::code_types_broken))]
fn judge_types(header: Header, nodes: &NodeRecords, bytes: &[u8]) -> Result<(), ObjectError>
    requires { IsWhole header bytes.now }
    ensures { Finds result (code_types_broken header nodes.now bytes.now) }
{
    let at = Places::of(header);
    let heads = part(bytes, at.types);
    check_types(header, nodes, at.types, heads)?;
    check_regs(header, nodes, at.regs, heads, part(bytes, at.regs))?;
    check_queue(header, nodes, at.queue, heads, part(bytes, at.queue))
}

/// Checks the blocks.
fn judge_blocks(header: Header, bytes: &[u8]) -> Result<(), ObjectError>
    requires { IsWhole header bytes.now }
    ensures { Finds result (blocks_broken header None (blocks_at header) (rows pair_layout header.blocks (blocks_part header bytes.now))) }
{
    let at = Places::of(header).blocks;
    check_blocks(header, at, part(bytes, at))
}

/// Checks the instructions, and returns how many substitution rows they take.
fn judge_instrs(header: Header, nodes: &NodeRecords, bytes: &[u8]) -> Result<u32, ObjectError>
    requires { IsWhole header bytes.now }
    ensures judged { Finds result (instrs_broken header nodes.now 0 (instrs_at header) (instr_rows_of header bytes.now)) }
    ensures taken { IfOk result (λ taken. taken ≡ rows_taken 0 (instr_rows_of header bytes.now)) }
    ensures few { IfOk result (λ taken. taken ≤ header.substs) }
{
    let at = Places::of(header).instrs;
    check_instrs(header, nodes, at, part(bytes, at))
}

/// Checks the substitution rows, as many as the instructions take.
fn judge_substs(
    header: Header,
    nodes: &NodeRecords,
    taken: u32,
    bytes: &[u8],
) -> Result<(), ObjectError>
    requires whole { IsWhole header bytes.now }
    requires taken { taken ≤ header.substs }
    ensures { Finds result (substs_broken header nodes.now taken (substs_at header) (substs_part header bytes.now)) }
{
    let at = Places::of(header).substs;
    check_substs(header, nodes, taken, at, part(bytes, at))
}

/// Checks the names.
fn judge_names(header: Header, bytes: &[u8]) -> Result<(), ObjectError>
    requires whole { IsWhole header bytes.now }
    requires ends { AreEnds past_of header.names 0 (rows cell_layout header.cells (cells_part bytes.now)) }
    ensures { Finds result (names_broken (version_of header) (total header) [] (names_at header) (cells_read header bytes.now)) }
{
    let at = Places::of(header);
    let records = part(bytes, 48);
    let names = part(bytes, at.names);
    check_names(
        header.version(),
        at.end,
        at.names,
        names,
        header.cells,
        records,
    )
}

/// Checks the nine sections.
#[tactic(auto, unfolding(ft_format::specs::Broken::tables_broken))]
fn judge_tables(header: Header, bytes: &[u8]) -> Result<(), ObjectError>
    requires { IsWhole header bytes.now }
    ensures { Finds result (tables_broken header bytes.now) }
{
    judge_cells(header, bytes)?;
    judge_nodes(header, bytes)?;
    let nodes = nodes_of(header, bytes);
    judge_types(header, &nodes, bytes)?;
    judge_blocks(header, bytes)?;
    let taken = judge_instrs(header, &nodes, bytes)?;
    judge_substs(header, &nodes, taken, bytes)?;
    judge_names(header, bytes)
}

/// Checks the length, the header and the total of the bytes, and returns the header.
fn read_front(bytes: &[u8]) -> Result<Header, ObjectError>
    ensures judged { Finds result (front_broken bytes.now) }
    ensures header { IfOk result (λ h. h ≡ header_at bytes.now) }
    ensures whole { IfOk result (λ h. IsWhole h bytes.now) }
{
    check(bytes.len() <= LIMIT, ObjectError::Length { at: LIMIT })?;
    check(48 <= bytes.len(), ObjectError::Length { at: bytes.len() })?;
    let header = Header::read(bytes);
    check_header(header)?;
    let end = Places::of(header).end;
    let shorter = bytes.len().min(end);
    check(bytes.len() == end, ObjectError::Length { at: shorter })?;
    Ok(header)
}

/// Checks the bytes, and returns their header or the first rule that they break.
#[tactic(auto, unfolding(ft_format::specs::Broken::broken))]
pub(crate) fn judge(bytes: &[u8]) -> Result<Header, ObjectError>
    ensures judged { Finds result (broken bytes.now) }
    ensures header { IfOk result (λ h. h ≡ header_at bytes.now) }
    ensures whole { IfOk result (λ h. IsWhole h bytes.now) }
{
    let header = read_front(bytes)?;
    judge_tables(header, bytes)?;
    Ok(header)
}
