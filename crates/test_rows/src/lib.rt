//! What the tests share: the words of rows, plain maps, and what plays rows over any folder and any disk. It names no layer
//! but the lowest, so that it is proved once, and early.
#![tactic(auto)]

pub mod calls;
pub mod disks;
pub mod drawn;
pub mod expecting;
pub mod folder_rows;
pub mod maps;
pub mod restarts;
pub mod session_rows;
pub mod stops;
pub mod system_rows;
pub mod words;
