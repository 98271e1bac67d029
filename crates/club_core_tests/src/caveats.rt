mod allowed;
mod calls;
mod values;
