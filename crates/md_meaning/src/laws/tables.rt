//! The meanings of worked trees with tables.

ghost use Rattle.md_meaning.specs.Trees.Tables as tables;
ghost use Rattle.md_meaning.specs.Trees.{Means};

/// The meaning of short table row.
pub fn meaning_of_short_table_row()
    ensures { Means tables.short_table_row_bytes tables.short_table_row
        tables.short_table_row_text }
{}

/// The meaning of call in a dropped cell.
pub fn meaning_of_call_in_a_dropped_cell()
    ensures { Means tables.call_in_a_dropped_cell_bytes tables.call_in_a_dropped_cell
        tables.call_in_a_dropped_cell_text }
{}

/// The meaning of code with a pipe in a table.
pub fn meaning_of_code_with_a_pipe_in_a_table()
    ensures { Means tables.code_with_a_pipe_in_a_table_bytes tables.code_with_a_pipe_in_a_table
        tables.code_with_a_pipe_in_a_table_text }
{}

/// The meaning of aligned column.
pub fn meaning_of_aligned_column()
    ensures { Means tables.aligned_column_bytes tables.aligned_column tables.aligned_column_text }
{}

/// The meaning of head without cells.
pub fn meaning_of_head_without_cells()
    ensures { Means tables.head_without_cells_bytes tables.head_without_cells
        tables.head_without_cells_text }
{}

/// The meaning of a table of four columns, with a short row and a long one.
pub fn meaning_of_table_of_each_alignment()
    ensures { Means tables.table_of_each_alignment_bytes tables.table_of_each_alignment
        tables.table_of_each_alignment_text }
{}

/// The meaning of head without delimiter values.
pub fn meaning_of_head_without_delimiter_values()
    ensures { Means tables.head_without_delimiter_values_bytes tables.head_without_delimiter_values
        tables.head_without_delimiter_values_text }
{}

/// The meaning of body without an ending before it.
pub fn meaning_of_body_without_an_ending_before_it()
    ensures { Means tables.body_without_an_ending_before_it_bytes
        tables.body_without_an_ending_before_it
        tables.body_without_an_ending_before_it_text }
{}

/// The meaning of call in a head.
pub fn meaning_of_call_in_a_head()
    ensures { Means tables.call_in_a_head_bytes tables.call_in_a_head tables.call_in_a_head_text }
{}

/// The meaning of table in a footnote.
pub fn meaning_of_table_in_a_footnote()
    ensures { Means tables.table_in_a_footnote_bytes tables.table_in_a_footnote
        tables.table_in_a_footnote_text }
{}
