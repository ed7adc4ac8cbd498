//! The library for C, whose exports are the calls of `include/sgb.h`: each calls a function of the libraries below, and states its
//! clauses again. A graph is held by a handle until it is closed. Arrays are of a run of its vertices: so many one after another.
#![tactic(auto)]

ghost use Rattle.std.specs.Prelude.{◌≡◌, ◌⊎◌, ◌≤◌, ◌+◌, ◌-◌, ◌^◌, ◌++◌, ◌∷◌, [], true, length, map, min, None};
ghost use Rattle.std.specs.List.{flat_map};
ghost use Rattle.sgb_file.specs.Saving.{text_of_graph};
ghost use Rattle.sgb_graph.specs.Graphs.{chain_of};
ghost use Rattle.sgb_graph.specs.Draws.{modulus, plain_draws, seed_of, uniform_draws};
ghost use Rattle.sgb_graph.specs.Kinds.{letter_of};
ghost use Rattle.sgb_arrays.specs.Fields.{HoldsInts, IsIntsRefusal, ints_of};
ghost use Rattle.sgb_arrays.specs.Given.{is_table, names_given};
ghost use Rattle.sgb_arrays.specs.OpenGraphs.{IsFileRefusal};
ghost use Rattle.sgb_arrays.specs.Runs.{AreNames, AreRows, AreTips, HaveNameLengths, HaveRowLengths, HaveTipLengths, IsFillRefusal, IsSizeRefusal, IsThere, parts_of};
ghost use Rattle.sgb_graph.specs.Vertices.{name_at};
ghost use Rattle.sgb_vec.specs.declared.panics.Panic.{Panic};
ghost use Rattle.sgb_vec.specs.declared.panics.Panic.TheVariants as panic;
ghost use Rattle.sgb_gen.specs.declared.params.Generator.{Generator};
ghost use Rattle.sgb_expr.specs.Expression.{Expression, Generated};
ghost use Rattle.sgb_expr.specs.Expressions.{IsExpression, IsTooLarge};
ghost use Rattle.sgb_values.specs.FirstRefusals.{IsRefusedFirst};
ghost use Rattle.sgb_c.specs.Answers.{AreSizes, IsAnswerFor, IsOutOfMemory, nothing_misfits, number_of};
ghost use Rattle.sgb_c.specs.Handles.{IsAnswerOn, IsListedIn, IsOpened, graph_in};

// What calls answer, and the numbers of it.
mod answers;
// The entries of an induced graph, as C gathers them.
mod entries;
// The handle of a list of entries.
mod entry_handles;
// A list of entries that C holds.
mod entry_lists;
// The handle of a graph.
mod handles;
// A graph that C holds.
mod held;
// Graphs that are made, and held.
mod made;
// Operations on open graphs.
mod operated;
// The exports of operations.
mod operations;
// The graph of a text.
mod texts;

use answers::Answer;
use handles::GraphHandle;
use sgb_arrays::{fill_draws, fill_name_lines, fill_uniform_draws};
use std::alloc::Global;
use texts::held_graph;

// The version of the library, 1.2.0: 1000000 for each major number, 1000 for each minor one.
const VERSION: u64 = 1_002_000;

/// How large a graph is.
#[repr(C)]
#[derive(Drop)]
pub struct Sizes {
    /// The number of vertices.
    pub vertices: u64,
    /// The number of bytes of its id.
    pub id: u64,
}

/// Opens the graph that a text names, where `input` is what its `stdin` reads. That of a generator's call is not built.
#[unsafe(no_mangle)]
pub extern "C" fn sgb_open(alloc: Global, text: &[u8], input: &[u8], graph: &mut GraphHandle) -> u64
    ensures opened { IsOpened text.now input.now (graph_in graph.old) (graph_in graph.new) result }
    ensures built { graph_in graph.old ≡ None → IsListedIn graph.new
        → (f : Generator) × IsExpression text.now (Generated f) }
    ensures large { graph_in graph.old ≡ None → IsTooLarge text.now
        → result ≡ number_of Answer.TooLarge }
    ensures first { (e : Expression) (p : Panic) → graph_in graph.old ≡ None
        → IsExpression text.now e → (IsTooLarge text.now → ⊥) → IsRefusedFirst input.now e p
        → (result ≡ number_of (Answer.Panic p))
        ⊎ (result ≡ number_of (Answer.Panic panic.NoRoom)) }
{
    if graph.is_open() {
        return Answer::AlreadyOpen.number();
    }
    match held_graph(alloc, text, input) {
        Ok(held) => {
            graph.put(held);
            Answer::Done.number()
        }
        Err(answer) => answer.number(),
    }
}

/// Closes the graph, if one is open, and gives its memory back.
#[unsafe(no_mangle)]
pub extern "C" fn sgb_close(alloc: Global, graph: &mut GraphHandle)
    ensures { graph_in graph.new ≡ None }
{
    let _closed = graph.take(alloc);
}

/// The sizes of the graph that is open. No memory is taken.
#[unsafe(no_mangle)]
pub extern "C" fn sgb_sizes(graph: &mut GraphHandle, sizes: &mut Sizes) -> u64
    ensures answer { IsAnswerOn (graph_in graph.old)
        (λ g. AreSizes g sizes.new)
        nothing_misfits
        (sizes.new ≡ sizes.old) result }
    ensures kept { graph.new.held.value ≡ graph.old.held.value }
{
    match graph.lend() {
        Some(held) => {
            *sizes = Sizes {
                vertices: u64::from(held.graph.n()),
                id: held.graph.id_len() as u64,
            };
            Answer::Done.number()
        }
        None => Answer::NotOpen.number(),
    }
}

/// How many arcs the graph that is open counts, where an edge counts as two: 2^64 - 1 also where there are more.
#[unsafe(no_mangle)]
pub extern "C" fn sgb_arcs(alloc: Global, graph: &mut GraphHandle, arcs: &mut u64) -> u64
    ensures answer { IsAnswerOn (graph_in graph.old)
        (λ g. arcs.new ≡ min g.m (2 ^ 64 - 1))
        (λ g. IsOutOfMemory (IsListedIn graph.old))
        (arcs.new ≡ arcs.old) result }
    ensures kept { graph.new.held.value ≡ graph.old.held.value }
{
    match graph.lend() {
        Some(held) => match held.graph.m(alloc) {
            Ok(m) => {
                *arcs = m.min(u128::from(u64::MAX)) as u64;
                Answer::Done.number()
            }
            Err(cause) => Answer::from(cause).number(),
        },
        None => Answer::NotOpen.number(),
    }
}

/// How many arcs are on the lists of a run of the graph, its `count` vertices from `first` on: 2^64 - 1 where there are more, too.
#[unsafe(no_mangle)]
pub extern "C" fn sgb_rows_size(
    alloc: Global,
    graph: &mut GraphHandle,
    first: u32,
    count: u32,
    arcs: &mut u64,
) -> u64
    ensures answer { IsAnswerOn (graph_in graph.old)
        (λ g. IsThere g first count
        × (arcs.new ≡ min (length (parts_of (chain_of g) first count)) (2 ^ 64 - 1)))
        (λ g. IsAnswerFor (IsSizeRefusal g first count (IsListedIn graph.old)))
        (arcs.new ≡ arcs.old) result }
    ensures kept { graph.new.held.value ≡ graph.old.held.value }
{
    match graph.lend() {
        Some(held) => match held.graph.arcs_len(alloc, first, count) {
            Ok(listed) => {
                *arcs = listed.min(u128::from(u64::MAX)) as u64;
                Answer::Done.number()
            }
            Err(cause) => Answer::from(cause).number(),
        },
        None => Answer::NotOpen.number(),
    }
}

/// How many bytes the names of a run have. No memory is taken.
#[unsafe(no_mangle)]
pub extern "C" fn sgb_names_size(
    graph: &mut GraphHandle,
    first: u32,
    count: u32,
    bytes: &mut u64,
) -> u64
    ensures answer { IsAnswerOn (graph_in graph.old)
        (λ g. IsThere g first count
        × (bytes.new ≡ length (parts_of (name_at g) first count)))
        (λ g. IsAnswerFor (IsSizeRefusal g first count ⊥))
        (bytes.new ≡ bytes.old) result }
    ensures kept { graph.new.held.value ≡ graph.old.held.value }
{
    match graph.lend() {
        Some(held) => match held.graph.names_len(first, count) {
            Ok(names) => {
                *bytes = names;
                Answer::Done.number()
            }
            Err(cause) => Answer::from(cause).number(),
        },
        None => Answer::NotOpen.number(),
    }
}

/// The lists of a run of the graph that is open, in compressed sparse rows.
#[unsafe(no_mangle)]
pub extern "C" fn sgb_rows(
    alloc: Global,
    graph: &mut GraphHandle,
    first: u32,
    count: u32,
    starts: &mut [u64],
    tips: &mut [u32],
    lengths: &mut [i64],
) -> u64
    ensures answer { IsAnswerOn (graph_in graph.old)
        (λ g. IsThere g first count
        × HaveRowLengths g first count starts.old tips.old lengths.old
        × AreRows g first count starts.new tips.new lengths.new)
        (λ g. IsAnswerFor (IsFillRefusal g first count
        (HaveRowLengths g first count starts.old tips.old lengths.old)
        (IsListedIn graph.old × (length starts.old ≡ count + 1))))
        ((starts.new ≡ starts.old) × (tips.new ≡ tips.old) × (lengths.new ≡ lengths.old)) result }
    ensures kept { graph.new.held.value ≡ graph.old.held.value }
{
    match graph.lend() {
        Some(held) => {
            let filling = held
                .graph
                .fill_rows(alloc, first, count, starts, tips, lengths);
            Answer::of_filling(filling).number()
        }
        None => Answer::NotOpen.number(),
    }
}

/// The lists of a run without the lengths of the arcs.
#[unsafe(no_mangle)]
pub extern "C" fn sgb_tips(
    alloc: Global,
    graph: &mut GraphHandle,
    first: u32,
    count: u32,
    starts: &mut [u64],
    tips: &mut [u32],
) -> u64
    ensures answer { IsAnswerOn (graph_in graph.old)
        (λ g. IsThere g first count
        × HaveTipLengths g first count starts.old tips.old
        × AreTips g first count starts.new tips.new)
        (λ g. IsAnswerFor (IsFillRefusal g first count
        (HaveTipLengths g first count starts.old tips.old)
        (IsListedIn graph.old × (length starts.old ≡ count + 1))))
        ((starts.new ≡ starts.old) × (tips.new ≡ tips.old)) result }
    ensures kept { graph.new.held.value ≡ graph.old.held.value }
{
    match graph.lend() {
        Some(held) => {
            let filling = held.graph.fill_tips(alloc, first, count, starts, tips);
            Answer::of_filling(filling).number()
        }
        None => Answer::NotOpen.number(),
    }
}

/// The names of the vertices of a run.
#[unsafe(no_mangle)]
pub extern "C" fn sgb_names(
    alloc: Global,
    graph: &mut GraphHandle,
    first: u32,
    count: u32,
    starts: &mut [u64],
    bytes: &mut [u8],
) -> u64
    ensures answer { IsAnswerOn (graph_in graph.old)
        (λ g. IsThere g first count
        × HaveNameLengths g first count starts.old bytes.old
        × AreNames g first count starts.new bytes.new)
        (λ g. IsAnswerFor (IsFillRefusal g first count
        (HaveNameLengths g first count starts.old bytes.old)
        (IsListedIn graph.old × (length starts.old ≡ count + 1))))
        ((starts.new ≡ starts.old) × (bytes.new ≡ bytes.old)) result }
    ensures kept { graph.new.held.value ≡ graph.old.held.value }
{
    match graph.lend() {
        Some(held) => {
            let filling = held.graph.fill_names(alloc, first, count, starts, bytes);
            Answer::of_filling(filling).number()
        }
        None => Answer::NotOpen.number(),
    }
}

/// The names that arrays hold, as `sgb_names` fills these, as lines: each with a newline behind it.
#[unsafe(no_mangle)]
pub extern "C" fn sgb_name_lines(starts: &[u64], names: &[u8], lines: &mut [u8]) -> u64
    ensures { ((result ≡ number_of Answer.Done) × (is_table (length names.now) starts.now ≡ true)
        × (length lines.old ≡ length names.now + (length starts.now - 1))
        × (lines.new ≡ flat_map (λ name. name ++ 10 ∷ []) (names_given starts.now names.now)))
        ⊎ ((result ≡ number_of Answer.Length) × (lines.new ≡ lines.old)
        × ((is_table (length names.now) starts.now ≡ true)
        × (length lines.old ≡ length names.now + (length starts.now - 1)) → ⊥)) }
{
    Answer::of_filling(fill_name_lines(starts, names, lines)).number()
}

/// The integers in a utility field of the vertices of a run: of u v w x y z, from 0.
#[unsafe(no_mangle)]
pub extern "C" fn sgb_ints(
    graph: &mut GraphHandle,
    field: u32,
    first: u32,
    count: u32,
    values: &mut [i64],
) -> u64
    ensures answer { IsAnswerOn (graph_in graph.old)
        (λ g. IsThere g first count × HoldsInts g field
        × (length values.old ≡ count) × (values.new ≡ ints_of g field first count))
        (λ g. IsAnswerFor (IsIntsRefusal g field first count (length values.old)))
        (values.new ≡ values.old) result }
    ensures kept { graph.new.held.value ≡ graph.old.held.value }
{
    match graph.lend() {
        Some(held) => {
            let filling = held.graph.fill_ints(field, first, count, values);
            Answer::of_filling(filling).number()
        }
        None => Answer::NotOpen.number(),
    }
}

/// The id of the graph that is open.
#[unsafe(no_mangle)]
pub extern "C" fn sgb_id(graph: &mut GraphHandle, bytes: &mut [u8]) -> u64
    ensures answer { IsAnswerOn (graph_in graph.old)
        (λ g. (length bytes.old ≡ length g.id) × (bytes.new ≡ g.id))
        (λ g why. (why ≡ Answer.Length) × (length bytes.old ≡ length g.id → ⊥))
        (bytes.new ≡ bytes.old) result }
    ensures kept { graph.new.held.value ≡ graph.old.held.value }
{
    match graph.lend() {
        Some(held) => Answer::of_filling(held.graph.fill_id(bytes)).number(),
        None => Answer::NotOpen.number(),
    }
}

/// What the utility fields of the graph that is open hold, a letter each: of vertices, of arcs, of the graph.
#[unsafe(no_mangle)]
pub extern "C" fn sgb_kinds(graph: &mut GraphHandle, letters: &mut [u8]) -> u64
    ensures answer { IsAnswerOn (graph_in graph.old)
        (λ g. (length letters.old ≡ 14) × (letters.new ≡ map letter_of g.kinds))
        (λ g why. (why ≡ Answer.Length) × (length letters.old ≡ 14 → ⊥))
        (letters.new ≡ letters.old) result }
    ensures kept { graph.new.held.value ≡ graph.old.held.value }
{
    match graph.lend() {
        Some(held) => Answer::of_filling(held.graph.fill_kinds(letters)).number(),
        None => Answer::NotOpen.number(),
    }
}

/// The size of the `.gb` file of the graph that is open, or 2^64 - 1 where it is larger.
#[unsafe(no_mangle)]
pub extern "C" fn sgb_file_size(alloc: Global, graph: &mut GraphHandle, size: &mut u64) -> u64
    ensures answer { IsAnswerOn (graph_in graph.old)
        (λ g. size.new ≡ min (length (text_of_graph g)) (2 ^ 64 - 1))
        (λ g. IsOutOfMemory (IsListedIn graph.old))
        (size.new ≡ size.old) result }
    ensures kept { graph.new.held.value ≡ graph.old.held.value }
{
    match graph.lend() {
        Some(held) => match held.graph.file_len(alloc) {
            Ok(bytes) => {
                *size = bytes;
                Answer::Done.number()
            }
            Err(cause) => Answer::from(cause).number(),
        },
        None => Answer::NotOpen.number(),
    }
}

/// The `.gb` file of the graph that is open.
#[unsafe(no_mangle)]
pub extern "C" fn sgb_file(alloc: Global, graph: &mut GraphHandle, bytes: &mut [u8]) -> u64
    ensures answer { IsAnswerOn (graph_in graph.old)
        (λ g. (length bytes.old ≡ length (text_of_graph g)) × (bytes.new ≡ text_of_graph g))
        (λ g. IsAnswerFor (IsFileRefusal g (length bytes.old) (IsListedIn graph.old)))
        (bytes.new ≡ bytes.old) result }
    ensures kept { graph.new.held.value ≡ graph.old.held.value }
{
    match graph.lend() {
        Some(held) => Answer::of_filling(held.graph.fill_file(alloc, bytes)).number(),
        None => Answer::NotOpen.number(),
    }
}

/// Random numbers, as GB_FLIP draws them when it is started from this value, after so many that are left out.
#[unsafe(no_mangle)]
pub extern "C" fn sgb_draws(start: i64, skip: u64, out: &mut [u32])
    ensures { out.new ≡ plain_draws (seed_of start) skip (length out.old) }
{
    fill_draws(start, skip, out);
}

/// Uniform random numbers below `m`, as GB_FLIP draws them from this value on, after so many plain draws that are left out.
#[unsafe(no_mangle)]
pub extern "C" fn sgb_uniform_draws(start: i64, skip: u64, m: u32, out: &mut [u32]) -> u64
    ensures { ((result ≡ number_of Answer.Done) × (1 ≤ m) × (m ≤ modulus)
        × (out.new ≡ uniform_draws (seed_of start) m skip (length out.old)))
        ⊎ ((result ≡ number_of Answer.Bound) × ((1 ≤ m) × (m ≤ modulus) → ⊥)
        × (out.new ≡ out.old)) }
{
    Answer::of_filling(fill_uniform_draws(start, skip, m, out)).number()
}

/// The version of the library: 1000000 times its major number, and 1000 times its minor one, and its patch.
#[unsafe(no_mangle)]
pub extern "C" fn sgb_version() -> u64
    ensures { result ≡ 1_002_000 }
{
    VERSION
}
