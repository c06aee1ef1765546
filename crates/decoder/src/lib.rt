// The face: every public call and type of the product under one name, and nothing of its own. By the paper's modules:
//     shared            pel2scu, in_component, in_format, get_if, get_qp, get_cbfl, get_cod, set_cod, clr_cod, leaf_word, size_ok, roots_along,
//                       block_side_ok, component_side_ok, block_ok, unit_ok, samples_ok, refusal_number, answer_number
//     1 chroma QP       derived_chroma_qp_mapping_tables; checked_points, start_qp, delta_in, delta_out
//     2 availability    get_avail_intra, get_avail_inter
//     3 mode ranks      get_mpm, get_mpm_number
//     4 gathering       get_nbr
//     5 five modes      ipred_b
//     6 residual        recon, recon_plane
//     7 driver          reconstruct; checked_leaves, coded_y, coded_u, coded_v, mode_of, word_of, clear_words, tell_units
//     8 walk            leaves, check, visiting_rank, list_edges; root_leaves, root_list, list_marks, take_marks, mark_place, mark_byte, root_count
//       deblocking      deblock; Bands::first, deblock_band; checked, checked_band, band_rows, rows_above, band_ok, lent_rows, entries, mask_of,
//                       line, lanes, lanes_by_halves, window_luma, window_luma_two, window_kept, window_chroma, window_chroma_two, motion_row,
//                       plan_edges, is_horizontal, filter_luma, filter_chroma
//       edge rows       fill_rows, set_motion, set_flag, deblock_by_rows; row_at, rows_at, rows_right, checked_maps, checked_by_rows
//     the sheet         read, listing; all_between, number_in
//     the compact map   put_map, get_map; take_map; write_to, write_map, read_from, read_map; get_bit, put_bit, bits_in
//     a torn map        mend
//     streams           read_header, write_header, read_frame, write_frame, import_frame
// Inside are those that a caller needs none of. They are public because another crate calls them, and total like the rest: checked_points, start_qp, delta_in,
// delta_out, checked_leaves, coded_y, coded_u, coded_v, mode_of, word_of, clear_words, tell_units, roots_along, root_leaves, root_list, list_marks, take_marks,
// mark_place, mark_byte, root_count, checked, checked_band, band_ok, lent_rows, entries, mask_of, line, lanes, lanes_by_halves, window_luma, window_luma_two,
// window_kept, window_chroma, window_chroma_two, motion_row, plan_edges, is_horizontal, filter_luma, filter_chroma, rows_at, checked_maps, checked_by_rows,
// bits_in, read, all_between, number_in.
#![tactic(auto)]

pub use avail::Neighbours;
pub use avail::get_avail_inter;
pub use avail::get_avail_intra;
pub use band_rows::LentRows;
pub use band_rows::band_ok;
pub use band_rows::band_rows;
pub use band_rows::lent_rows;
pub use band_rows::rows_above;
pub use bits::get_bit;
pub use bits::put_bit;
pub use by_rows_check::checked_by_rows;
pub use chroma_qp::derived_chroma_qp_mapping_tables;
pub use chroma_qp_check::checked_points;
pub use chroma_qp_check::delta_in;
pub use chroma_qp_check::delta_out;
pub use chroma_qp_check::start_qp;
pub use def::Component;
pub use def::Format;
pub use def::Pel;
pub use def::Refusal;
pub use def::Scu;
pub use def::answer_number;
pub use def::block_ok;
pub use def::block_side_ok;
pub use def::clr_cod;
pub use def::component_side_ok;
pub use def::get_cbfl;
pub use def::get_cod;
pub use def::get_if;
pub use def::get_qp;
pub use def::in_component;
pub use def::in_format;
pub use def::leaf_word;
pub use def::pel2scu;
pub use def::refusal_number;
pub use def::roots_along;
pub use def::set_cod;
pub use def::size_ok;
pub use def::unit_ok;
pub use df::Banded;
pub use df::Bands;
pub use df::deblock;
pub use df::deblock_by_rows;
pub use df_check::Settings;
pub use df_check::checked;
pub use df_check::checked_band;
pub use driver::reconstruct;
pub use driver_check::checked_leaves;
pub use edge_filter::Pass;
pub use edge_filter::filter_chroma;
pub use edge_filter::filter_luma;
pub use edge_filter::is_horizontal;
pub use edge_place::plan_edges;
pub use edges::list_edges;
pub use edges::root_list;
pub use ipred::ipred_b;
pub use lanes::lanes;
pub use lanes::lanes_by_halves;
pub use leaf_record::coded_u;
pub use leaf_record::coded_v;
pub use leaf_record::coded_y;
pub use leaf_record::mode_of;
pub use leaf_record::word_of;
pub use line::Mask;
pub use line::Motion;
pub use line::Quad;
pub use line::line;
pub use line::mask_of;
pub use line::motion_row;
pub use marks::list_marks;
pub use marks::mark_byte;
pub use marks::mark_place;
pub use marks::root_count;
pub use marks::take_marks;
pub use mend::mend;
pub use mpm::get_mpm;
pub use mpm::get_mpm_number;
pub use nbr::get_nbr;
pub use pack::Placed;
pub use pack::bits_in;
pub use pack::put_map;
pub use pack_parts::Reader;
pub use pack_parts::Writer;
pub use pack_parts::read_from;
pub use pack_parts::read_map;
pub use pack_parts::write_map;
pub use pack_parts::write_to;
pub use rank::visiting_rank;
pub use recon::recon;
pub use recon::recon_plane;
pub use row::row_at;
pub use row::rows_at;
pub use rows::checked_maps;
pub use rows::fill_rows;
pub use rows::rows_right;
pub use samples::samples_ok;
pub use sheet::listing;
pub use sheet_lines::Malformed;
pub use sheet_lines::Sheet;
pub use sheet_lines::all_between;
pub use sheet_lines::number_in;
pub use sheet_lines::read;
pub use split::EdgeCounts;
pub use split::check;
pub use split::leaves;
pub use split::root_leaves;
pub use strength::entries;
pub use unit_edits::Flag;
pub use unit_edits::set_flag;
pub use unit_edits::set_motion;
pub use unit_maps::clear_words;
pub use unit_maps::tell_units;
pub use unpack::get_map;
pub use unpack::take_map;
pub use window::Place;
pub use window::window_chroma;
pub use window::window_chroma_two;
pub use window::window_kept;
pub use window::window_luma;
pub use window::window_luma_two;
pub use y4m::import_frame;
pub use y4m_frame::read_frame;
pub use y4m_frame_out::write_frame;
pub use y4m_header::Header;
pub use y4m_header::read_header;
pub use y4m_header_out::write_header;
pub use y4m_rules::Misread;
pub use y4m_rules::Said;
