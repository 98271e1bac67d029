mod bad_arguments;
mod doubles;
mod failing;
mod forms;
mod plenty;
mod process;
mod runs;
mod verifying;
