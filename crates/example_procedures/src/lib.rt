//! Worked names of procedures and programs, each proved from the contracts alone: of the program of RFC 1813 that
//! mounts.
#![tactic(auto)]

mod mount;
mod programs;

pub use mount::{
    export_by_names, export_by_numbers, has_no_fourth_version, is_cut_short, is_no_number,
};
pub use programs::{
    has_no_version_of_that_name, has_too_many_parts, mount_by_names, mount_is_installed, seven,
};
