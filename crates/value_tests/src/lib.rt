//! Tests of values, cells and definitions, by their public calls.
#![tactic(auto)]

#[cfg(test)]
mod aal5_frames_check_tests;
#[cfg(test)]
mod aal5_frames_crc_tests;
#[cfg(test)]
mod aal5_frames_segmentation_tests;
#[cfg(test)]
mod atm_cells_tests;
#[cfg(test)]
mod crossbar_model_tests;
#[cfg(test)]
mod flow_ids_tests;
#[cfg(test)]
mod ipv4_packet_tests;
#[cfg(test)]
mod lab_text_hex_line_tests;
#[cfg(test)]
mod lab_text_line_tests;
#[cfg(test)]
mod lab_text_numeral_tests;
#[cfg(test)]
mod net_types_prefix_tests;
