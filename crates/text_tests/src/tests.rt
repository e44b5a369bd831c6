mod commands_and_replies;
mod documents;
