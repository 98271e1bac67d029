//! Crashes at each call of a file.

mod crash;
mod desk;
mod disk;
mod laws;
mod recorded;
mod reference_club;
mod tables;
mod tasks;
mod torn;
mod work;
