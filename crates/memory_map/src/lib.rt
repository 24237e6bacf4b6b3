// The map of a module of depth 1, 2 or 3: where lines, counter blocks, nodes and shadow entries lie.
#![tactic(auto)]

ghost use Rattle.std.specs.Prelude.{◌≡◌, ◌+◌, ◌%◌, ◌≤◌};
ghost use Rattle.memory_map.specs.Map.{
  node,
  shadow,
  cell_of,
  InMap,
  page_of,
  place_of,
  on_path,
  level_start,
  shadow_cells,
  array_length,
  pages as pages_of,
  lines as lines_of,
  nodes as nodes_of,
  slots as slots_of,
  cells as cells_of,
};

pub fn pages(h: usize) -> usize
    requires { (1 ≤ h) × (h ≤ 3) }
    ensures { result ≡ pages_of h }
{
    1 << (3 * h)
}

pub fn lines(h: usize) -> usize
    requires { (1 ≤ h) × (h ≤ 3) }
    ensures { result ≡ lines_of h }
{
    64 << (3 * h)
}

pub fn page_of(line: usize) -> usize
    ensures { result ≡ page_of line }
{
    line >> 6
}

pub fn place_of(line: usize) -> usize
    ensures { result ≡ place_of line }
{
    line & 63
}

pub fn nodes(h: usize, l: usize) -> usize
    requires { (1 ≤ h) × ((h ≤ 3) × (l ≤ h)) }
    ensures { result ≡ nodes_of h l }
{
    1 << (3 * (h - l))
}

// The node of level l on the path of page p.
pub fn on_path(p: usize, l: usize) -> usize
    requires { l ≤ 3 }
    ensures { result ≡ on_path p l }
{
    p >> (3 * l)
}

// The place of that node among the eight children of the node above it.
pub fn child_place(p: usize, l: usize) -> usize
    requires { l ≤ 3 }
    ensures { result ≡ on_path p l % 8 }
{
    on_path(p, l) & 7
}

// The first cell of a level. The level above the top starts with the shadow cells. Levels 0 to h have
// as many nodes as the octal number of h + 1 ones says, those from l on as that of h + 1 - l ones.
pub fn level_start(h: usize, l: usize) -> usize
    requires { (1 ≤ h) × ((h ≤ 3) × (l ≤ h + 1)) }
    ensures { result ≡ level_start h l }
{
    lines(h) + (0o1111 >> (9 - 3 * h)) - (0o1111 >> (9 - 3 * h + 3 * l))
}

pub fn slots(h: usize) -> usize
    requires { (1 ≤ h) × (h ≤ 3) }
    ensures { result ≡ slots_of h }
{
    4 + 2 * h
}

pub fn shadow_cells(h: usize) -> usize
    requires { (1 ≤ h) × (h ≤ 3) }
    ensures { result ≡ shadow_cells h }
{
    slots(h)
}

pub fn node_cell(h: usize, l: usize, i: usize) -> usize
    requires { (1 ≤ h) × ((h ≤ 3) × InMap h (node l i)) }
    ensures { result ≡ cell_of h (node l i) }
{
    level_start(h, l) + i
}

pub fn shadow_cell(h: usize, s: usize) -> usize
    requires { (1 ≤ h) × ((h ≤ 3) × InMap h (shadow s)) }
    ensures { result ≡ cell_of h (shadow s) }
{
    level_start(h, h + 1) + s
}

pub fn cells(h: usize) -> usize
    requires { (1 ≤ h) × (h ≤ 3) }
    ensures { result ≡ cells_of h }
{
    shadow_cells(h) + level_start(h, h + 1)
}

pub fn array_length(h: usize) -> usize
    requires { (1 ≤ h) × (h ≤ 3) }
    ensures { result ≡ array_length h }
{
    72 * cells(h)
}
