mod maps;
mod normal_forms;
mod sessions;
mod workspaces;
