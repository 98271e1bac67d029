mod bad_arguments;
mod plenty;
mod tasks;
